// Marks that spread over the classes, down to parts or up from them, until nothing changes.
ghost use Rattle.std.specs.Prelude.{◌≤◌, ◌<◌};
ghost use Rattle.model.specs.Stored.{table_in};
ghost use Rattle.theory.specs.Decides.{Decides};
ghost use Rattle.knowledge.specs.Knowledge.{ClassRow, MarkRow};
ghost use Rattle.wants.specs.Spread.{Reaches, Lowering, Lowered, Raises, Raising, Raised};

use super::starts::ends;
use cells::Table;
use classes::{Row, class_of};

// Is the class d, which has the byte `flag` in the row `only`, to be marked as part of c?
fn reaches(marks: &Row, only: &Row, flag: u8, c: usize, d: usize) -> bool
    requires c_bound { c ≤ 128 }
    requires d_bound { d ≤ 128 }
    ensures { Decides result (Reaches marks.now only.now flag c d) }
{
    marks[c] == 1 && only[d] == flag && marks[d] != 1
}

// One sweep downwards: the parts of marked cells are marked, as far as they have `flag` in `only`. Says whether a mark is new.
fn lower_once(table: &Table, rep: &Row, only: &Row, flag: u8, marks: &mut Row) -> bool
    requires class_row { ClassRow table.now.count rep.now }
    requires mark_row { MarkRow rep.now marks.old }
    ensures { Lowering (table_in table.now.words) rep.now only.now flag marks.old marks.new result table.now.count 0 }
{
    let n = table.count;
    let mut changed = false;
    for c in (0..n).rev() {
        if marks[c] != 1 {
            continue;
        }
        let e = ends(table, rep, c);
        if reaches(marks, only, flag, c, e.left) {
            marks[e.left] = 1;
            changed = true;
        }
        if reaches(marks, only, flag, c, e.right) {
            marks[e.right] = 1;
            changed = true;
        }
    }
    changed
}

// The marks with the parts of marked cells, as far as they have `flag` in `only`.
pub fn lowered(table: &Table, rep: &Row, only: &Row, flag: u8, start: Row) -> Row
    requires class_row { ClassRow table.now.count rep.now }
    requires mark_row { MarkRow rep.now start }
    ensures { Lowered (table_in table.now.words) rep.now only.now flag start result }
{
    let mut m = start;
    while lower_once(table, rep, only, flag, &mut m) {}
    m
}

// Is c to be marked, as a cell with a marked part?
fn raises(table: &Table, rep: &Row, marks: &Row, c: usize) -> bool
    requires class_row { ClassRow table.now.count rep.now }
    requires c_lt_n { c < table.now.count }
    ensures { Decides result (Raises (table_in table.now.words) rep.now marks.now c) }
{
    if class_of(rep, c) != c || marks[c] == 1 {
        return false;
    }
    let e = ends(table, rep, c);
    marks[e.left] == 1 || marks[e.right] == 1
}

// One sweep upwards: cells with a marked part are marked. Says whether a mark is new.
fn raise_once(table: &Table, rep: &Row, marks: &mut Row) -> bool
    requires class_row { ClassRow table.now.count rep.now }
    requires mark_row { MarkRow rep.now marks.old }
    ensures { Raising (table_in table.now.words) rep.now marks.old marks.new result table.now.count }
{
    let n = table.count;
    let mut changed = false;
    for c in 0..n {
        if raises(table, rep, marks, c) {
            marks[c] = 1;
            changed = true;
        }
    }
    changed
}

// The marks with the cells that hold a marked one.
pub fn raised(table: &Table, rep: &Row, start: Row) -> Row
    requires class_row { ClassRow table.now.count rep.now }
    requires mark_row { MarkRow rep.now start }
    ensures { Raised (table_in table.now.words) rep.now start result }
{
    let mut m = start;
    while raise_once(table, rep, &mut m) {}
    m
}
