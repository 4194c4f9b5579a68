// What is granted at a step of the search: keys that may be equal to a cell that is seen count as built, and what may leak counts as seen. And the ways down
// through what is not built by it.
// What a row keeps over a table or another row is a clause of each function and no type: it is a fact of two values, of which one is made anew or changed (docs/DECISIONS.md).

#![tactic(auto)]

pub mod grants;
mod leaks;
pub mod line;
mod meets;

// Two cells of which one may be made equal to the other: a place among the pairs, row by row.
#[derive(Clone, Copy, Debug, PartialEq, Eq)]
pub struct Place {
    pub c: usize,
    pub d: usize,
}
