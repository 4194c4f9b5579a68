// The sets of one step of the search: what may have to be made equal to a bare cell.
ghost use Rattle.std.specs.Prelude.{◌+◌};
ghost use Rattle.model.specs.Stored.{table_in};
ghost use Rattle.theory.specs.Cells.{RunWords};
ghost use Rattle.knowledge.specs.Knowledge.{ClassRow, MarkRow};
ghost use Rattle.wants.specs.Starts.{Wider, Joint};
ghost use Rattle.wants.specs.Sets.{NeedRow, HeldRow, OverRow, WantedRow};

use super::spread::{lowered, raised};
use super::starts::{due, free_seen, keys, picked};
use cells::{Run, Table, aim_of, event_at};
use classes::Row;
use knowledge::{Marks, cell, learn};

// The marks of `start`, the keys that are not built of the seals that are seen, and of such cells the parts that are not built.
pub fn needed(table: &Table, rep: &Row, seen: &Row, built: &Row, start: Row) -> Row
    requires class_row { ClassRow table.now.count rep.now }
    requires mark_row { MarkRow rep.now built.now }
    requires mark_row_2 { MarkRow rep.now start }
    ensures wider { Wider rep.now start result }
    ensures row { NeedRow (table_in table.now.words) rep.now seen.now built.now result }
{
    let k = keys(table, rep, seen, built, start);
    lowered(table, rep, built, 0, k)
}

// The cells that hold a free class that is seen.
pub fn holds(table: &Table, rep: &Row, seen: &Row) -> Row
    requires class_row { ClassRow table.now.count rep.now }
    requires mark_row { MarkRow rep.now seen.now }
    ensures { HeldRow (table_in table.now.words) rep.now seen.now result }
{
    raised(table, rep, free_seen(table, rep, seen))
}

// The cells that are to be made before p, and their parts, as far as they hold a free class that is seen.
pub fn over(table: &Table, rep: &Row, hold: &Row, run: &Run, p: usize) -> Row
    requires class_row { ClassRow table.now.count rep.now }
    requires run_words { RunWords table.now.count run.now p }
    ensures { OverRow (table_in table.now.words) rep.now hold.now run.now p result }
{
    let n = table.count;
    let m = due(n, rep, hold, run, p);
    lowered(table, rep, hold, 1, m)
}

// The marks of both rows.
fn joint(a: Row, b: Row) -> Row
    ensures { Joint a b result 129 }
{
    picked(129, a, |c| (b[c] == 1).then_some(c))
}

// The cells that may have to be made equal to a bare one, at the MK at p, by the marks of what is seen and built.
pub fn wanted(table: &Table, rep: &Row, o: Marks, run: &Run, p: usize) -> Row
    requires class_row { ClassRow table.now.count rep.now }
    requires mark_row { MarkRow rep.now o.seen }
    requires mark_row_2 { MarkRow rep.now o.built }
    requires run_words { RunWords table.now.count run.now (p + 1) }
    ensures { WantedRow (table_in table.now.words) rep.now o.seen o.built run.now p result }
{
    let n = table.count;
    let goal = learn(n, rep, [0; 129], cell(aim_of(event_at(run, p))));
    let need = needed(table, rep, &o.seen, &o.built, goal);
    let hold = holds(table, rep, &o.seen);
    let top = over(table, rep, &hold, run, p);
    joint(need, top)
}
