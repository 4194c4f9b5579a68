// Whether two cells are alike by the classes of their parts, and where they differ.
ghost use Rattle.std.specs.Prelude.{◌≤◌, ◌≡◌};
ghost use Rattle.model.specs.Message.{Two};
ghost use Rattle.model.specs.Case.{TWO};
ghost use Rattle.model.specs.Stored.{table_in};
ghost use Rattle.theory.specs.Cells.{class_at};
ghost use Rattle.classes.specs.Differ.{Told, PartTold};

use super::Row;
use cells::{Meeting, Words, cell_at};

// How two cells differ: not at all, in kind, name or function, or in two parts that are to be joined. Three answers, of which callers take two and two
// together in turn: neither an Option nor a Result has their shape.
#[derive(Clone, Copy, Debug, PartialEq, Eq)]
pub enum Diff {
    Same,
    Clash,
    Parts(u8, u8),
}

// The cell that stands for the class of c, as it is stored: from 128 on, that of 128.
pub fn class_byte(rep: &Row, c: usize) -> u8
    ensures { result ≡ class_at rep.now c }
{
    if c < 128 { rep[c] } else { rep[128] }
}

// The same of a cell that is known to have an entry.
pub fn class_within(rep: &Row, c: usize) -> usize
    requires { c ≤ 128 }
    ensures { result ≡ class_at rep.now c }
{
    usize::from(rep[c])
}

// The cell that stands for the class of c, as a number.
pub fn class_of(rep: &Row, c: usize) -> usize
    ensures { result ≡ class_at rep.now c }
{
    usize::from(class_byte(rep, c))
}

// Two parts: of one class, or to be joined.
fn part(rep: &Row, x: u8, y: u8) -> Diff
    ensures { PartTold (class_at rep.now) x y result }
{
    if class_of(rep, usize::from(x)) == class_of(rep, usize::from(y)) {
        Diff::Same
    } else {
        Diff::Parts(x, y)
    }
}

// Two cells of one kind with two parts.
fn both(rep: &Row, a: u8, b: u8, x: u8, y: u8) -> Diff
    ensures { (h : Two) → Told (class_at rep.now) (TWO h a b) (TWO h x y) result }
{
    match part(rep, a, x) {
        Diff::Same => part(rep, b, y),
        d => d,
    }
}

// The cells c and d, by the classes of their parts. A variable is alike no cell.
pub fn compare(words: &Words, rep: &Row, c: usize, d: usize) -> Diff
    ensures { Told (class_at rep.now) (table_in words.now c) (table_in words.now d) result }
{
    match cells::meet(cell_at(words, c), cell_at(words, d)) {
        Meeting::Unlike => Diff::Clash,
        Meeting::Same => Diff::Same,
        Meeting::One(a, x) => part(rep, a, x),
        Meeting::Two(a, x, b, y) => both(rep, a, b, x, y),
    }
}
