// Joins that every message of the cells asks for, until nothing is left to join.
ghost use Rattle.std.specs.Prelude.{◌+◌};
ghost use Rattle.model.specs.Stored.{table_in};
ghost use Rattle.classes.specs.Kept.{Kept};
ghost use Rattle.classes.specs.Settle.{Asks, Bound, BindsAll, Settles};

use super::Row;
use super::alike::{Diff, class_of, compare};
use super::joins::join;
use cells::{Table, is_variable};

// No messages of the cells satisfy the classes.
#[derive(Clone, Copy, Debug, PartialEq, Eq)]
struct Clash;

// The cell c with the one that stands for its class. A cell that stands for its class asks for nothing.
fn differ(table: &Table, rep: &Row, c: usize) -> Diff
    requires kept { Kept table.now.count (table_in table.now.words) rep.now }
    ensures { Asks table.now.count (table_in table.now.words) rep.now c result }
{
    let r = class_of(rep, c);
    if r == c || is_variable(&table.words, c) {
        return Diff::Same;
    }
    compare(&table.words, rep, c, r)
}

// One binding step: what the cell c asks for is joined, or it clashes; says whether it joined.
fn bind(table: &Table, rep: &mut Row, c: usize) -> Result<bool, Clash>
    requires kept { Kept table.now.count (table_in table.now.words) rep.old }
    ensures { Bound table.now.count (table_in table.now.words) rep.old c rep.new result }
{
    match differ(table, rep, c) {
        Diff::Same => Ok(false),
        Diff::Clash => Err(Clash),
        Diff::Parts(x, y) => {
            *rep = join(table, *rep, x, y);
            Ok(true)
        }
    }
}

// Binding steps at the first cell beyond the table's, which shows his own name, and downwards at each of its cells, until it asks for nothing:
// parts lie lower, so what a join asks for is mostly found on the way. Says whether any step joined.
fn bind_all(table: &Table, rep: &mut Row) -> Result<bool, Clash>
    requires kept { Kept table.now.count (table_in table.now.words) rep.old }
    ensures { BindsAll table.now.count (table_in table.now.words) rep.old (table.now.count + 1) rep.new result }
{
    let n = table.count;
    let mut changed = false;
    // c stays at a cell until it asks for nothing, which no range does.
    let mut c = n + 1;
    while c > 0 {
        if bind(table, rep, c - 1)? {
            changed = true;
        } else {
            c -= 1;
        }
    }
    Ok(changed)
}

// Joins until nothing is left to join; none if no messages of the cells satisfy the classes.
pub fn settle(table: &Table, start: Row) -> Option<Row>
    requires kept { Kept table.now.count (table_in table.now.words) start }
    ensures { Settles table.now.count (table_in table.now.words) start result }
{
    let mut rep = start;
    while bind_all(table, &mut rep).ok()? {}
    Some(rep)
}
