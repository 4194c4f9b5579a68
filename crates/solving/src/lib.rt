// The search for right values: what is tried at a step, the steps, and the value list that they end with.
// What a row keeps over a table or another row is a clause of each function and no type: it is a fact of two values, of which one is made anew or changed (docs/DECISIONS.md).

#![tactic(auto)]

mod list;
mod pairs;
mod plan;
pub mod search;
