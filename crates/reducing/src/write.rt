// The bytes of the reduced file.
ghost use Rattle.std.specs.Prelude.{◌++◌, ◌≡◌, ◌+◌, ◌*◌, ◌≤◌, length};
ghost use Rattle.std.proofs.lemmas.List.Edits.{sets};
ghost use Rattle.model.specs.Format.{Kind, mark, cell_bytes, event_bytes, joined};
ghost use Rattle.reducing.specs.Plan.{planned, Sized};

use super::Plan;
use cells::{Event, cell_at};
use records::{put_cell, put_event, put_mark};

// The records of the cells, from the front of `out`.
pub fn write_cells(plan: &Plan, out: &mut [u8])
    requires { Sized plan.now × (4 * plan.now.cells ≤ length out.old) }
    ensures { out.new ≡ sets out.old 0 (joined cell_bytes (planned plan.now).cells) }
{
    for i in 0..plan.cells {
        put_cell(out, 4 * i, cell_at(&plan.table, i));
    }
}

// Behind them the records of the events, and the end.
pub fn write_events(plan: &Plan, out: &mut [u8])
    requires { Sized plan.now × (4 * plan.now.cells + 3 * plan.now.events + 2 ≤ length out.old) }
    ensures { out.new ≡ sets out.old (4 * plan.now.cells) (joined event_bytes (planned plan.now).events ++ mark Kind.End) }
{
    let mut at = 4 * plan.cells;
    for c in 0..plan.cells {
        if plan.learnt[c] == 1 {
            put_event(out, at, Event::Learn(c as u8));
            at += 3;
        }
    }
    put_mark(out, at, b"EN");
}
