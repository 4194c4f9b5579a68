// What is wrong with an input, and where: how the reader of files, the questions and the reader of typed text refuse.

#![tactic(auto)]

ghost use Rattle.std.specs.Prelude.{◌≡◌};
ghost use Rattle.refusals.specs.Numbers.{number_of};

use std::fmt;

// What is wrong, in the order of the numbers by which it is told.
#[derive(Clone, Copy, Debug, PartialEq, Eq)]
pub enum Fault {
    // The bytes end inside a record, or before the end.
    Cut,
    // No record has this mark.
    UnknownMark,
    // A cell behind an event.
    LateCell,
    // More than 128 cells, or events.
    TooMany,
    // There is no such cell, or not before this one.
    NoSuchCell,
    // A variable is learnt that nothing made before holds.
    LooseVariable,
    // Bytes behind the end.
    Trailing,
    // The question is about files without variables.
    Variable,
    // The buffer is shorter than the reply.
    ShortBuffer,
    // No value list of the file.
    BadList,
    // No line of text could have this byte there.
    WrongByte,
    // Nested deeper than 16.
    TooDeep,
}

impl Fault {
    // The number by which it is told.
    pub fn number(self) -> u8
        ensures { result ≡ number_of self }
    {
        match self {
            Fault::Cut => 1,
            Fault::UnknownMark => 2,
            Fault::LateCell => 3,
            Fault::TooMany => 4,
            Fault::NoSuchCell => 5,
            Fault::LooseVariable => 6,
            Fault::Trailing => 7,
            Fault::Variable => 8,
            Fault::ShortBuffer => 9,
            Fault::BadList => 10,
            Fault::WrongByte => 11,
            Fault::TooDeep => 12,
        }
    }
}

// A refusal: what is wrong, and its place. What a place counts, bytes or cells or entries, is said with the fault.
#[derive(Clone, Copy, Debug, PartialEq, Eq)]
pub struct Refusal {
    pub fault: Fault,
    pub place: usize,
}

impl fmt::Display for Refusal {
    fn fmt<W: fmt::Write>(&self, f: &mut fmt::Formatter<W>) -> fmt::Result {
        let number = self.fault.number();
        let place = self.place;
        write!(f, "refused {number} at {place}")
    }
}
