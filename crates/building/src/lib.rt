// The question build marks: for each cell of a file without variables, can its message be built from all LN messages?

#![tactic(auto)]

ghost use Rattle.std.specs.Prelude.{ℕ, ◌≤◌, length};
ghost use Rattle.theory.specs.Cells.{class_at};
ghost use Rattle.building.specs.Promise.{MarksPromise};
ghost use Rattle.building.specs.Lay.{Lays};

use classes::{Row, class_within};
use refusals::{Fault, Refusal};

// Lays the marks of the classes of the cells at the front of the buffer.
fn lay_marks(n: usize, rep: &Row, built: &Row, out: &mut [u8])
    requires n_bound { n ≤ 128 }
    requires by_index { (c : ℕ) → class_at rep.now c ≤ 128 }
    requires n_in_bounds { n ≤ length out.old }
    ensures { Lays n rep.now built.now out.old out.new }
{
    for c in 0..n {
        out[c] = built[class_within(rep, c)];
    }
}

// Reads a case file and marks each cell: 1 if its message can be built from all LN messages, else 0. The reply is how many marks are written.
pub fn build_marks(file: &[u8], out: &mut [u8]) -> Result<usize, Refusal>
    ensures { MarksPromise file.now out.old result out.new }
{
    let case = casefile::read_case(file)?;
    if let Some(place) = case.variable {
        return Err(Refusal {
            fault: Fault::Variable,
            place,
        });
    }
    let n = case.table.count;
    if out.len() < n {
        return Err(Refusal {
            fault: Fault::ShortBuffer,
            place: n,
        });
    }
    let known = knowledge::heard::open_heard(&case.table, &case.run.words, case.run.count);
    lay_marks(n, &known.rep, &known.built, out);
    Ok(n)
}
