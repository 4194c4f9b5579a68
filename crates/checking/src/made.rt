// What is to be made: each MK asks whether its cell is built from what was learnt before it.
ghost use Rattle.std.specs.Prelude.{◌≤◌, ◌<◌};
ghost use Rattle.model.specs.Stored.{table_in, run_in};
ghost use Rattle.theory.specs.Cells.{RunWords};
ghost use Rattle.knowledge.specs.Knowledge.{ClassRow};
ghost use Rattle.checking.specs.Made.{MadeAt, AllMade};

use cells::{Event, Run, Table, event_at};
use classes::Row;
use knowledge::heard::learnt_before;

// Is what the event at p asks for built from what was learnt before it? An LN asks for nothing.
fn made_at(table: &Table, rep: &Row, run: &Run, count: usize, p: usize) -> bool
    requires class_row { ClassRow table.now.count rep.now }
    requires run_words { RunWords table.now.count run.now count }
    requires p_lt_count { p < count }
    ensures { MadeAt (table_in table.now.words) rep.now (run_in count run.now) p result }
{
    let n = table.count;
    match event_at(run, p) {
        Event::Make(x) => {
            let seen = learnt_before(n, rep, run, count, p);
            let known = knowledge::open_known(table, rep, seen);
            knowledge::has(n, rep, &known.built, x)
        }
        Event::Learn(_) => true,
    }
}

// Is every MK cell built from what was learnt before it?
pub fn all_made(table: &Table, rep: &Row, run: &Run, count: usize) -> bool
    requires class_row { ClassRow table.now.count rep.now }
    requires run_words { RunWords table.now.count run.now count }
    ensures { AllMade (table_in table.now.words) rep.now (run_in count run.now) result }
{
    (0..count).all(|p| made_at(table, rep, run, count, p))
}
