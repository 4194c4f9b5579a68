// The value list of a class array.
ghost use Rattle.std.specs.Prelude.{◌≤◌, ◌<◌};
ghost use Rattle.model.specs.Stored.{table_in};
ghost use Rattle.solving.specs.Listing.{Valued, Entered, Listed};

use cells::{Table, is_variable};
use classes::{Row, class_of};

// The entry of a variable whose class the cell r stands for.
fn value_of(table: &Table, r: usize) -> u8
    ensures { Valued (table_in table.now.words) table.now.count r result }
{
    if table.count <= r || is_variable(&table.words, r) {
        255
    } else {
        r as u8
    }
}

// The entry of the cell c.
fn entry_of(table: &Table, rep: &Row, c: usize) -> u8
    requires c_lt_n { c < table.now.count }
    ensures { Entered (table_in table.now.words) table.now.count rep.now c result }
{
    if is_variable(&table.words, c) {
        value_of(table, class_of(rep, c))
    } else {
        c as u8
    }
}

// The list of the classes: for each variable the cell that stands for its class, or 255; for any other cell its own number.
pub fn value_list(table: &Table, rep: &Row) -> [u8; 128]
    ensures { Listed (table_in table.now.words) table.now.count rep.now result table.now.count }
{
    let mut out = [0; 128];
    for c in 0..table.count {
        out[c] = entry_of(table, rep, c);
    }
    out
}
