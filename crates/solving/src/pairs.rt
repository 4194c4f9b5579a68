// Pairs of cells that may have to be made equal.
ghost use Rattle.std.specs.Prelude.{◌≤◌, ◌<◌};
ghost use Rattle.model.specs.Stored.{table_in};
ghost use Rattle.theory.specs.Decides.{Decides};
ghost use Rattle.solving.specs.Pairs.{Mirrored, Pairs, place, InRow, NextPair};

use cells::{Table, Words, kin_at};
use classes::{Row, class_of};
use granting::Place;

// Does the pair of c and d also stand the other way round, and earlier?
fn mirrored(want: &Row, bare: &Row, c: usize, d: usize) -> bool
    requires c_bound { c < 128 }
    requires d_bound { d < 128 }
    ensures { Decides result (Mirrored want.now bare.now c d) }
{
    d < c && want[d] == 1 && bare[c] == 1
}

// Is c a wanted cell that is to be made equal to the bare cell d?
pub fn pairing(words: &Words, rep: &Row, want: &Row, bare: &Row, c: usize, d: usize) -> bool
    requires c_bound { c < 128 }
    requires d_bound { d < 128 }
    ensures { Decides result (Pairs (table_in words.now) rep.now want.now bare.now c d) }
{
    want[c] == 1
        && bare[d] == 1
        && class_of(rep, c) != class_of(rep, d)
        && !mirrored(want, bare, c, d)
        && kin_at(words, c, d)
}

// The first cell from `from.d` on that is a pair with the cell `from.c`.
fn in_row(table: &Table, rep: &Row, want: &Row, bare: &Row, from: Place) -> Option<usize>
    requires c_lt_n { from.c < table.now.count }
    ensures { InRow (table_in table.now.words) table.now.count rep.now want.now bare.now from.c from.d result }
{
    // The row of a cell that is not wanted has no pair: it need not be gone through.
    if want[from.c] != 1 {
        return None;
    }
    (from.d..table.count).find(|d| pairing(&table.words, rep, want, bare, from.c, *d))
}

// The next pair from the place `from` on, row by row.
pub fn next_pair(table: &Table, rep: &Row, want: &Row, bare: &Row, from: Place) -> Option<Place>
    requires d_bound { from.d ≤ 128 }
    ensures { NextPair (table_in table.now.words) table.now.count rep.now want.now bare.now (place from.c from.d) result }
{
    let mut d = from.d;
    for c in from.c..table.count {
        if let Some(d) = in_row(table, rep, want, bare, Place { c, d }) {
            return Some(Place { c, d });
        }
        d = 0;
    }
    None
}
