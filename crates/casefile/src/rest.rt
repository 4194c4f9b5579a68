// The event records of a file: read as a part of the file that begins where the cell records end.
ghost use Rattle.std.specs.Prelude.{◌≡◌, ◌+◌, ◌<◌, ◌≤◌, ◌^◌, length, drop};
ghost use Rattle.model.specs.Stored.{table_in};
ghost use Rattle.theory.specs.Decides.{Decides};
ghost use Rattle.cells.specs.Cells.{as_cell, as_event};
ghost use Rattle.casefile.specs.Events.{event_step, event_says, PartsFit, PartsMarked, WithinMarked, LooseAt, LooseMarks, Loose, marks_after, AimFits, EventsRead};

use super::record::{Front, Record};
use super::{Row, store};
use cells::{Cell, Event, Parts, Table};
use refusals::{Fault, Refusal};

// The step at a whole record of an event, after n events over so many cells.
fn next_event(e: Event, count: usize, n: usize) -> Result<Event, Fault>
    ensures { result ≡ event_step e count n }
{
    if 128 <= n {
        Err(Fault::TooMany)
    } else if count <= usize::from(cells::aim_of(e)) {
        Err(Fault::NoSuchCell)
    } else {
        Ok(e)
    }
}

// What stands at `at`, after n events over so many cells: one more, or the end.
#[tactic(auto, using(crate::proofs::EventLaws::whole_late, crate::proofs::EventLaws::short_late))]
fn event_step(rest: &[u8], at: usize, count: usize, n: usize) -> Result<Option<Event>, Fault>
    ensures { event_says (drop at rest.now) count n result }
{
    match super::record::front_at(rest, at)? {
        Front::Whole(Record::Cell(_)) | Front::ShortCell => Err(Fault::LateCell),
        Front::Whole(Record::Event(e)) => Ok(Some(next_event(e, count, n)?)),
        Front::Whole(Record::End) => Ok(None),
        Front::ShortEvent => Err(super::record::short_fault(n)),
    }
}

// Marks the parts of a cell too.
fn mark_parts(k: Cell, marks: &mut [u8; 128])
    requires { PartsFit (as_cell k) }
    ensures { PartsMarked (as_cell k) marks.old marks.new }
{
    match cells::parts_of(k) {
        Parts::None => {}
        Parts::One(a) => marks[usize::from(a)] = 1,
        Parts::Two(a, b) => {
            marks[usize::from(a)] = 1;
            marks[usize::from(b)] = 1;
        }
    }
}

// Marks all cells that stand in the cell c too: from c downwards, as parts are lower.
fn mark_within(table: &Table, marks: &mut [u8; 128], c: u8)
    requires { c < 128 }
    ensures { WithinMarked (table_in table.now.words) marks.old c marks.new }
{
    let top = usize::from(c);
    marks[top] = 1;
    for i in (0..top + 1).rev() {
        if marks[i] == 1 {
            mark_parts(cells::cell_at(&table.words, i), marks);
        }
    }
}

// Is the cell v a variable, marked as held and not as made?
fn loose_at(table: &Table, v: usize, held: u8, made: u8) -> bool
    ensures { Decides result (LooseAt (table_in table.now.words v) held made) }
{
    held == 1 && made != 1 && cells::is_variable(&table.words, v)
}

// Is some variable marked as held and not as made?
fn is_loose(table: &Table, held: &[u8; 128], made: &[u8; 128]) -> bool
    ensures { Decides result (LooseMarks (table_in table.now.words) held.now made.now) }
{
    (0..128).any(|v| loose_at(table, v, held[v], made[v]))
}

// Does an event show a variable that is not marked as made?
#[tactic(auto, using(crate::proofs::WithinLaws::learn_loose))]
fn shows_loose(table: &Table, made: &[u8; 128], event: Event) -> bool
    requires { AimFits (as_event event) }
    ensures { Decides result (Loose (table_in table.now.words) made.now (as_event event)) }
{
    match event {
        Event::Make(_) => false,
        Event::Learn(c) => {
            let mut held = [0; 128];
            mark_within(table, &mut held, c);
            is_loose(table, &held, made)
        }
    }
}

// Marks what an event makes too.
fn mark_made(table: &Table, made: &mut [u8; 128], event: Event)
    requires { AimFits (as_event event) }
    ensures { marks_after (table_in table.now.words) made.old (as_event event) made.new }
{
    match event {
        Event::Make(c) => mark_within(table, made, c),
        Event::Learn(_) => {}
    }
}

// The event records from the front of the rest of a file, which begins at the offset `base`. Nothing may follow their end.
pub fn read_events(rest: &[u8], base: usize, table: &Table) -> Result<Row, Refusal>
    requires { base + length rest.now < 2 ^ 64 }
    ensures { EventsRead rest.now base table.now result }
{
    let mut run = store::no_words();
    let mut made = [0; 128];
    let mut at: usize = 0;
    loop {
        match event_step(rest, at, table.count, run.count) {
            Err(fault) => return Err(Refusal {
                fault,
                place: base + at,
            }),
            Ok(None) => {
                if 2 < rest.len() - at {
                    return Err(Refusal {
                        fault: Fault::Trailing,
                        place: base + at + 2,
                    });
                }
                return Ok(run);
            }
            Ok(Some(event)) => {
                if shows_loose(table, &made, event) {
                    return Err(Refusal {
                        fault: Fault::LooseVariable,
                        place: base + at,
                    });
                }
                mark_made(table, &mut made, event);
                store::push(&mut run, cells::event_word(event));
                at += 3;
            }
        }
    }
}
