// The cell records of a file: a table by value.
ghost use Rattle.std.specs.Prelude.{◌≡◌, leb, length, drop};
ghost use Rattle.model.specs.Format.{numbers, any_of, cell_bytes};
ghost use Rattle.model.specs.Format as format;
ghost use Rattle.cells.specs.Cells.{as_cell};
ghost use Rattle.casefile.specs.Cells.{cell_step, cell_says, CellsRead};

use super::record::{Front, Record};
use super::store;
use cells::{Cell, Parts, Table};
use refusals::{Fault, Refusal};

// The cells of a file, and the offset where their records end.
#[derive(Clone, Copy)]
pub struct Cells {
    pub table: Table,
    pub at: usize,
}

// Some part's number is not below n.
#[tactic(auto, using(crate::proofs::CellLaws::none_outside, crate::proofs::CellLaws::one_outside, crate::proofs::CellLaws::first_outside, crate::proofs::CellLaws::second_outside))]
fn outside(c: Cell, n: usize) -> bool
    ensures { result ≡ any_of (leb n) (numbers (format.Record.cell (as_cell c))) }
{
    match cells::parts_of(c) {
        Parts::None => false,
        Parts::One(a) => n <= usize::from(a),
        Parts::Two(a, b) => n <= usize::from(a) || n <= usize::from(b),
    }
}

// The step at a whole record of a cell, after n cells.
fn next_cell(c: Cell, n: usize) -> Result<Cell, Fault>
    ensures { result ≡ cell_step c n }
{
    if 128 <= n {
        Err(Fault::TooMany)
    } else if outside(c, n) {
        Err(Fault::NoSuchCell)
    } else {
        Ok(c)
    }
}

// What stands at `at`, after n cells: one more, or the events' first record.
fn cell_step(file: &[u8], at: usize, n: usize) -> Result<Option<Cell>, Fault>
    ensures { cell_says (drop at file.now) n result }
{
    match super::record::front_at(file, at)? {
        Front::Whole(Record::Cell(c)) => Ok(Some(next_cell(c, n)?)),
        Front::ShortCell => Err(super::record::short_fault(n)),
        Front::Whole(Record::Event(_)) | Front::Whole(Record::End) | Front::ShortEvent => Ok(None),
    }
}

// The cell records from the front of a file.
pub fn read_cells(file: &[u8]) -> Result<Cells, Refusal>
    ensures { CellsRead file.now result }
{
    let mut row = store::no_words();
    let mut at: usize = 0;
    loop {
        match cell_step(file, at, row.count) {
            Err(fault) => return Err(Refusal { fault, place: at }),
            Ok(None) => {
                let table = Table {
                    words: row.words,
                    count: row.count,
                };
                return Ok(Cells { table, at });
            }
            Ok(Some(c)) => {
                store::push(&mut row, cells::word_of(c));
                at += records::size_of(c);
            }
        }
    }
}
