// Classes of cells that are to show equal messages: each cell's representative in an array of 129 bytes.
// What a row keeps over a table or another row is a clause of each function and no type: it is a fact of two values, of which one is made anew or changed (docs/DECISIONS.md).

#![tactic(auto)]

mod alike;
pub mod clash;
mod closing;
mod joins;
mod peel;
mod twins;
pub mod upward;

ghost use Rattle.std.specs.Prelude.{◌<◌};
ghost use Rattle.model.specs.Stored.{table_in};
ghost use Rattle.classes.specs.Kept.{Kept};
ghost use Rattle.classes.specs.Settle.{Unifies};

pub use alike::{class_of, class_within};
use cells::Table;
pub use closing::settle;
pub use joins::join;
pub use peel::acyclic;
pub use twins::start;

// A class array: for each cell the one that stands for its class. A row of marks or links is of the same form.
pub type Row = [u8; 129];

// The classes of a and b in one, with all that this asks for; none if no messages of the cells allow it.
pub fn unify(table: &Table, rep: Row, a: u8, b: u8) -> Option<Row>
    requires kept { Kept table.now.count (table_in table.now.words) rep }
    requires a_lt_n { (a < table.now.count) × (b < table.now.count) }
    ensures { Unifies table.now.count (table_in table.now.words) rep a b result }
{
    let out = settle(table, join(table, rep, a, b))?;
    acyclic(table, out).then_some(out)
}
