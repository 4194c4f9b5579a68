// The question "run": values of the variables under which the intruder can make all that is asked of him, or that there are none.

#![tactic(auto)]

ghost use Rattle.running.specs.Promise.{RunPromise};

use refusals::{Fault, Refusal};

// Reads a case file and answers its run, any bytes, any buffer: the number of bytes written, none for "no", or a refusal.
pub fn run(file: &[u8], out: &mut [u8]) -> Result<Option<usize>, Refusal>
    ensures { RunPromise file.now out.old result out.new }
{
    let case = casefile::read_case(file)?;
    let n = case.table.count;
    if out.len() < n {
        return Err(Refusal {
            fault: Fault::ShortBuffer,
            place: n,
        });
    }
    let Some(list) = solving::search::solve(&case.table, &case.run.words, case.run.count) else {
        return Ok(None);
    };
    out[..n].copy_from_slice(&list[..n]);
    Ok(Some(n))
}
