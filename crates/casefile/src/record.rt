// One record: its mark and its fields.
ghost use Rattle.std.specs.Prelude.{◌≡◌, cond, ◌∷◌, [], ◌+◌, ◌≤◌, leb, length, get_or, drop, Ok};
ghost use Rattle.refusals.specs.declared.Fault.TheVariants.{Cut, TooMany};
ghost use Rattle.model.specs.Format.{kinds, kind_among, width, record_of};
ghost use Rattle.casefile.specs.Record.{kind_for, as_mark, mark_at, record_says, short_of, Marked, front_says};

use cells::{Cell, Event};
use refusals::Fault;

// The kinds of records.
#[derive(Clone, Copy, Debug, PartialEq, Eq)]
pub enum Kind {
    Atom,
    Variable,
    Pair,
    Seal,
    Apply,
    Make,
    Learn,
    End,
}

// What a record says: a cell, an event, or the end.
#[derive(Clone, Copy, Debug, PartialEq, Eq)]
pub enum Record {
    Cell(Cell),
    Event(Event),
    End,
}

// What stands where a record is due: a whole one; the mark of a cell, or of an event, without all of its fields.
#[derive(Clone, Copy, Debug, PartialEq, Eq)]
pub enum Front {
    Whole(Record),
    ShortCell,
    ShortEvent,
}

// The kind that has these two bytes as its mark.
fn kind_of(first: u8, second: u8) -> Result<Kind, Fault>
    ensures { result ≡ as_mark (kind_among (first ∷ second ∷ []) kinds) }
{
    match (first, second) {
        (b'A', b'T') => Ok(Kind::Atom),
        (b'V', b'A') => Ok(Kind::Variable),
        (b'P', b'R') => Ok(Kind::Pair),
        (b'S', b'E') => Ok(Kind::Seal),
        (b'A', b'P') => Ok(Kind::Apply),
        (b'M', b'K') => Ok(Kind::Make),
        (b'L', b'N') => Ok(Kind::Learn),
        (b'E', b'N') => Ok(Kind::End),
        _ => Err(Fault::UnknownMark),
    }
}

// The kind of the record at `at`, by its mark.
fn mark_at(file: &[u8], at: usize) -> Result<Kind, Fault>
    ensures { result ≡ mark_at (drop at file.now) }
{
    if file.len() < 2 || file.len() - 2 < at {
        return Err(Fault::Cut);
    }
    kind_of(file[at], file[at + 1])
}

// How many bytes of fields follow a mark.
fn width_of(kind: Kind) -> usize
    ensures { result ≡ width (kind_for kind) }
{
    match kind {
        Kind::Atom | Kind::Pair | Kind::Seal | Kind::Apply => 2,
        Kind::Make | Kind::Learn => 1,
        Kind::Variable | Kind::End => 0,
    }
}

// The byte at i, or 0 past the end.
fn byte(file: &[u8], i: usize) -> u8
    ensures { result ≡ get_or file.now i 0 }
{
    file.get(i).copied().unwrap_or(0)
}

// The record of a kind with the field bytes a and b.
fn record_of(kind: Kind, a: u8, b: u8) -> Record
    ensures { record_says result ≡ record_of (kind_for kind) a b }
{
    match kind {
        Kind::Atom => Record::Cell(Cell::Atom(u16::from_be_bytes([a, b]))),
        Kind::Variable => Record::Cell(Cell::Variable),
        Kind::Pair => Record::Cell(Cell::Pair(a, b)),
        Kind::Seal => Record::Cell(Cell::Seal(a, b)),
        Kind::Apply => Record::Cell(Cell::Apply(a, b)),
        Kind::Make => Record::Event(Event::Make(a)),
        Kind::Learn => Record::Event(Event::Learn(a)),
        Kind::End => Record::End,
    }
}

// A record of a kind that is short of its fields.
fn short_of(kind: Kind) -> Front
    ensures { result ≡ short_of kind }
{
    match kind {
        Kind::Atom | Kind::Variable | Kind::Pair | Kind::Seal | Kind::Apply => Front::ShortCell,
        Kind::Make | Kind::Learn | Kind::End => Front::ShortEvent,
    }
}

// The record of the kind whose mark stands at `at`.
fn fields_at(file: &[u8], at: usize, kind: Kind) -> Front
    requires { Marked (drop at file.now) (kind_for kind) }
    ensures { front_says (drop at file.now) (Ok result) }
{
    let from = at + 2;
    if file.len() - from < width_of(kind) {
        return short_of(kind);
    }
    let a = byte(file, from);
    let b = byte(file, from + 1);
    Front::Whole(record_of(kind, a, b))
}

// What stands at `at`, where a record is due; a fault of its mark.
pub fn front_at(file: &[u8], at: usize) -> Result<Front, Fault>
    ensures { front_says (drop at file.now) result }
{
    let kind = mark_at(file, at)?;
    Ok(fields_at(file, at, kind))
}

// The fault of a record that is short of its fields, after n of its sort: the count is tested first.
pub fn short_fault(n: usize) -> Fault
    ensures { result ≡ cond (leb 128 n) TooMany Cut }
{
    if 128 <= n { Fault::TooMany } else { Fault::Cut }
}
