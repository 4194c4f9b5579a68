// The sets of one step of the search, as marks on the cells that stand for their class: the bare cells, and those that may have to be made equal to one.
// What a row keeps over a table or another row is a clause of each function and no type: it is a fact of two values, of which one is made anew or changed (docs/DECISIONS.md).

#![tactic(auto)]

pub mod sets;
mod spread;
mod starts;

pub use starts::{bares, ends, free_at};
