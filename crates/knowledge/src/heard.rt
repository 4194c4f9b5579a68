// What he can build from all that is learnt, for a table without variables: the classes of equal messages, and which of them are built.
ghost use Rattle.std.specs.Prelude.{◌≤◌};
ghost use Rattle.model.specs.Stored.{table_in, run_in};
ghost use Rattle.theory.specs.Cells.{RunWords};
ghost use Rattle.knowledge.specs.Knowledge.{ClassRow};
ghost use Rattle.knowledge.specs.Heard.{LearntAll, HeardOpened};

use cells::{Event, Run, Table, event_at};
use classes::Row;

// The class array of a table, and the marks, 0 or 1, of the classes that can be built.
#[derive(Clone, Copy, Debug, PartialEq, Eq)]
pub struct Knowledge {
    pub rep: Row,
    pub built: Row,
}

// Marks the classes of the cells learnt before position p as seen; an MK adds nothing.
pub fn learnt_before(n: usize, rep: &Row, run: &Run, count: usize, p: usize) -> Row
    requires n_bound { n ≤ 128 }
    requires class_row { ClassRow n rep.now }
    requires run_words { RunWords n run.now count }
    requires p_le_count { p ≤ count }
    ensures { LearntAll rep.now (run_in count run.now) p result }
{
    let mut seen = [0; 129];
    for q in 0..p {
        match event_at(run, q) {
            Event::Make(_) => {}
            Event::Learn(x) => {
                // Bound first: the borrow checker covers no call whose result is laid at once in the array that it was handed.
                let more = super::learn(n, rep, seen, super::cell(x));
                seen = more;
            }
        }
    }
    seen
}

// The classes of equal messages, and what he can build from all that is learnt.
pub fn open_heard(table: &Table, run: &Run, count: usize) -> Knowledge
    requires run_words { RunWords table.now.count run.now count }
    ensures { HeardOpened table.now.count (table_in table.now.words) (run_in count run.now) result }
{
    let n = table.count;
    let rep = classes::start(table);
    let learnt = learnt_before(n, &rep, run, count, count);
    let built = super::open_known(table, &rep, learnt).built;
    Knowledge { rep, built }
}
