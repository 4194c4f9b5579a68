// A cell and an event as one word each, taken apart here alone: what a word shows, a cell's parts, what it is composed of and what opens it.

#![tactic(auto)]

ghost use Rattle.std.specs.Prelude.{◌≡◌, ◌+◌, ◌*◌, ◌≤◌, ◌<◌, get_or};
ghost use Rattle.model.specs.Stored.{cell_at, cell_in, table_in, word_of, event_at, event_in, aim, event_word};
ghost use Rattle.model.specs.Case.{VA};
ghost use Rattle.theory.specs.Level.{Kin};
ghost use Rattle.theory.specs.Decides.{Decides};
ghost use Rattle.cells.specs.Cells.{as_cell, as_event, parts_of, MadeOf, Opens, Meets};

pub mod table;

pub use table::Table;

// The words of a table: one for each cell, then zeros. A word has the kind above its two field bytes; the byte above the kind is free.
pub type Words = [u32; 128];

// A run: one word for each event, then zeros. A word has the kind, a free byte and the cell; the byte above the kind is free too.
pub type Run = [u32; 128];

// A cell: a name, a variable, a pair of cells, a seal with its body and its key, a function with its argument.
#[derive(Clone, Copy, Debug, PartialEq, Eq)]
pub enum Cell {
    Atom(u16),
    Variable,
    Pair(u8, u8),
    Seal(u8, u8),
    Apply(u8, u8),
}

// An event: a cell that he must make, or one that he learns.
#[derive(Clone, Copy, Debug, PartialEq, Eq)]
pub enum Event {
    Make(u8),
    Learn(u8),
}

// The parts of a cell.
#[derive(Clone, Copy, Debug, PartialEq, Eq)]
pub enum Parts {
    None,
    One(u8),
    Two(u8, u8),
}

// What a seen cell gives: nothing, both its parts, or a body, once the key is built.
#[derive(Clone, Copy, Debug, PartialEq, Eq)]
pub enum Opening {
    Shut,
    Open(u8, u8),
    Locked(u8, u8),
}

// Two cells held against each other: of another kind, name or function; one name; or of one kind and function, with their parts in pairs. A variable is like no cell.
#[derive(Clone, Copy, Debug, PartialEq, Eq)]
pub enum Meeting {
    Unlike,
    Same,
    One(u8, u8),
    Two(u8, u8, u8, u8),
}

// The cell of a kind with these field bytes.
fn cell_of(kind: u32, a: u8, b: u8) -> Cell
    ensures { as_cell result ≡ cell_at kind a b }
{
    match kind {
        0 => Cell::Atom(u16::from_be_bytes([a, b])),
        1 => Cell::Variable,
        2 => Cell::Pair(a, b),
        3 => Cell::Seal(a, b),
        4 => Cell::Apply(a, b),
        _ => Cell::Atom(0),
    }
}

// The cell of a word.
fn cell_in(word: u32) -> Cell
    ensures { as_cell result ≡ cell_in word }
{
    cell_of(
        word / 65536 % 256,
        (word / 256 % 256) as u8,
        (word % 256) as u8,
    )
}

// The cell c of a table, one of its 128 words.
pub fn cell_within(words: &Words, c: usize) -> Cell
    requires { c < 128 }
    ensures { as_cell result ≡ table_in words.now c }
{
    cell_in(words[c])
}

// The cell c of a table; past its words his own name.
pub fn cell_at(words: &Words, c: usize) -> Cell
    ensures { as_cell result ≡ table_in words.now c }
{
    if c < 128 {
        cell_within(words, c)
    } else {
        Cell::Atom(0)
    }
}

// The word of a kind and two field bytes.
fn word(kind: u32, a: u8, b: u8) -> u32
    requires { kind ≤ 4 }
    ensures { result ≡ kind * 65536 + a * 256 + b }
{
    kind * 65536 + u32::from(a) * 256 + u32::from(b)
}

// The word of a cell.
pub fn word_of(c: Cell) -> u32
    ensures { result ≡ word_of (as_cell c) }
{
    match c {
        Cell::Atom(n) => u32::from(n),
        Cell::Variable => word(1, 0, 0),
        Cell::Pair(l, r) => word(2, l, r),
        Cell::Seal(b, k) => word(3, b, k),
        Cell::Apply(f, a) => word(4, f, a),
    }
}

// The parts of a cell.
pub fn parts_of(c: Cell) -> Parts
    ensures { result ≡ parts_of (as_cell c) }
{
    match c {
        Cell::Atom(_) | Cell::Variable => Parts::None,
        Cell::Pair(a, b) | Cell::Seal(a, b) => Parts::Two(a, b),
        Cell::Apply(_, a) => Parts::One(a),
    }
}

// What he composes a cell of, if he can: today its parts. Written beside `parts_of`, as not every application has to be composed.
#[tactic(auto, using(crate::proofs::CellLaws::composing))]
pub fn made_of(c: Cell) -> Parts
    ensures { MadeOf (as_cell c) result }
{
    match c {
        Cell::Atom(_) | Cell::Variable => Parts::None,
        Cell::Pair(a, b) | Cell::Seal(a, b) => Parts::Two(a, b),
        Cell::Apply(_, a) => Parts::One(a),
    }
}

// What a cell gives once it is seen.
#[tactic(auto, using(crate::proofs::CellLaws::opening_up))]
pub fn opens(c: Cell) -> Opening
    ensures { Opens (as_cell c) result }
{
    match c {
        Cell::Atom(_) | Cell::Variable | Cell::Apply(_, _) => Opening::Shut,
        Cell::Pair(l, r) => Opening::Open(l, r),
        Cell::Seal(b, k) => Opening::Locked(b, k),
    }
}

// Two cells held against each other.
#[tactic(auto, using(crate::proofs::CellLaws::meetings))]
pub fn meet(c: Cell, d: Cell) -> Meeting
    ensures { Meets (as_cell c) (as_cell d) result }
{
    match (c, d) {
        (Cell::Atom(n), Cell::Atom(m)) if n == m => Meeting::Same,
        (Cell::Pair(a, b), Cell::Pair(x, y)) => Meeting::Two(a, x, b, y),
        (Cell::Seal(a, b), Cell::Seal(x, y)) => Meeting::Two(a, x, b, y),
        (Cell::Apply(f, a), Cell::Apply(g, x)) if f == g => Meeting::One(a, x),
        (
            Cell::Atom(_)
            | Cell::Variable
            | Cell::Pair(_, _)
            | Cell::Seal(_, _)
            | Cell::Apply(_, _),
            _,
        ) => Meeting::Unlike,
    }
}

// Are two cells of one kind that has parts and does not give them by itself? Each way of opening and of meeting is named, so that a new one has to say what it is.
fn kin(c: Cell, d: Cell) -> bool
    ensures { Decides result (Kin (as_cell c) (as_cell d)) }
{
    match opens(c) {
        Opening::Open(_, _) => false,
        Opening::Shut | Opening::Locked(_, _) => match meet(c, d) {
            Meeting::Unlike | Meeting::Same => false,
            Meeting::One(_, _) | Meeting::Two(_, _, _, _) => true,
        },
    }
}

// Are the cells c and d of a table kin?
pub fn kin_at(words: &Words, c: usize, d: usize) -> bool
    ensures { Decides result (Kin (table_in words.now c) (table_in words.now d)) }
{
    kin(cell_at(words, c), cell_at(words, d))
}

// Is the cell c of a table a variable?
pub fn is_variable(words: &Words, c: usize) -> bool
    ensures { Decides result (table_in words.now c ≡ VA) }
{
    cell_at(words, c) == Cell::Variable
}

// The event of a kind with its cell.
fn event_of(kind: u32, c: u8) -> Event
    ensures { as_event result ≡ event_at kind c }
{
    match kind {
        0 => Event::Make(c),
        1 => Event::Learn(c),
        _ => Event::Make(128),
    }
}

// The event at the position p of a run.
pub fn event_at(run: &Run, p: usize) -> Event
    requires { p < 128 }
    ensures { as_event result ≡ event_in (get_or run.now p 0) }
{
    let w = run[p];
    event_of(w / 65536 % 256, (w % 256) as u8)
}

// The cell of an event.
pub fn aim_of(e: Event) -> u8
    ensures { result ≡ aim (as_event e) }
{
    match e {
        Event::Make(c) | Event::Learn(c) => c,
    }
}

// The word of an event.
pub fn event_word(e: Event) -> u32
    ensures { result ≡ event_word (as_event e) }
{
    match e {
        Event::Make(c) => u32::from(c),
        Event::Learn(c) => 65536 + u32::from(c),
    }
}
