// The question "equating": a list under which two cells of a file show one message, written into a lent buffer.

#![tactic(auto)]

ghost use Rattle.std.specs.Prelude.{◌≡◌, ◌⊎◌, ◌<◌, ◌≤◌, length, get_or};
ghost use Rattle.model.specs.Stored.{table_in};
ghost use Rattle.model.specs.Replies.{laid};
ghost use Rattle.theory.specs.Decides.{Decides};
ghost use Rattle.equating.specs.Entries.{entry_of, list_of};
ghost use Rattle.equating.specs.Promise.{EquatePromise};

use cells::{Words, is_variable};
use classes::Row;
use refusals::{Fault, Refusal};

// Is a or b none of n cells?
fn outside(n: usize, a: usize, b: usize) -> bool
    ensures { Decides result ((n ≤ a) ⊎ (n ≤ b)) }
{
    a >= n || b >= n
}

// The entry of the cell c: for a variable the cell that stands for its class, for any other cell its own number.
fn entry(words: &Words, rep: &Row, c: usize) -> u8
    requires { c < 128 }
    ensures { result ≡ entry_of (table_in words.now c) (get_or rep.now c 0) c }
{
    if is_variable(words, c) {
        rep[c]
    } else {
        c as u8
    }
}

// Writes the entries of n cells to the front of the buffer.
fn write_list(words: &Words, rep: &Row, n: usize, out: &mut [u8])
    requires { (n ≤ 128) × (n ≤ length out.old) }
    ensures { out.new ≡ laid (list_of (table_in words.now) rep.now n) out.old }
{
    for i in 0..n {
        out[i] = entry(words, rep, i);
    }
}

// Two cells of a file, made equal: any bytes and any two numbers. The reply is the number of bytes written, or None for "no".
pub fn equate(file: &[u8], a: usize, b: usize, out: &mut [u8]) -> Result<Option<usize>, Refusal>
    ensures { EquatePromise file.now a b out.old result out.new }
{
    let case = casefile::read_case(file)?;
    let n = case.table.count;
    if outside(n, a, b) {
        return Err(Refusal {
            fault: Fault::NoSuchCell,
            place: n,
        });
    }
    if out.len() < n {
        return Err(Refusal {
            fault: Fault::ShortBuffer,
            place: n,
        });
    }
    let start = classes::start(&case.table);
    let Some(rep) = classes::unify(&case.table, start, a as u8, b as u8) else {
        return Ok(None);
    };
    write_list(&case.table.words, &rep, n, out);
    Ok(Some(n))
}
