// The face for callers in C and Rust: each question, and the reading of typed text, as an exported function whose reply is one number.
// A refusal is number * 2^32 + place; "no" and "wrong" are 0; "right" is 1; every other reply is 1 + the bytes written.
// A place of 2^32 - 1 or more, which only a text as long as that can have, is told as 2^32 - 1.

#![tactic(auto)]

ghost use Rattle.std.specs.Prelude.{◌≡◌, ◌<◌, ◌^◌};
ghost use Rattle.refusals.specs.Numbers.{number_of};
ghost use Rattle.prismfleece.specs.Numbers.{refusal_number, reply_number, Room, bytes_number, list_number, told_refusal, EquateTold, RunTold, CheckTold, MarksTold, ReduceTold, TextTold};

use refusals::Refusal;

// A refusal as a number.
fn refusal(refused: Refusal) -> u64
    requires { refused.place < 2 ^ 32 }
    ensures { result ≡ refusal_number (number_of refused.fault) refused.place }
{
    u64::from(refused.fault.number()) * 4294967296 + refused.place as u64
}

// A reply of so many bytes as a number.
fn written(reply: Result<usize, Refusal>) -> u64
    requires { Room bytes_number reply }
    ensures { result ≡ reply_number bytes_number reply }
{
    match reply {
        Err(refused) => refusal(refused),
        Ok(n) => n as u64 + 1,
    }
}

// A reply of a list of so many bytes, or "no", as a number.
fn listed(reply: Result<Option<usize>, Refusal>) -> u64
    requires { Room list_number reply }
    ensures { result ≡ reply_number list_number reply }
{
    match reply {
        Err(refused) => refusal(refused),
        Ok(None) => 0,
        Ok(Some(n)) => n as u64 + 1,
    }
}

// A refusal of a text with its place as it is told.
fn cut_place(refused: Refusal) -> Refusal
    ensures { result ≡ told_refusal refused }
{
    Refusal {
        place: refused.place.min(4294967295),
        ..refused
    }
}

// Equating: the cells a and b of a file, the list in `out`.
#[unsafe(no_mangle)]
pub extern "C" fn prismfleece_equate(file: &[u8], a: usize, b: usize, out: &mut [u8]) -> u64
    ensures { EquateTold file.now a b out.old result out.new }
{
    listed(equating::equate(file, a, b, out))
}

// Run: a right value list in `out`, or "no".
#[unsafe(no_mangle)]
pub extern "C" fn prismfleece_run(file: &[u8], out: &mut [u8]) -> u64
    ensures { RunTold file.now out.old result out.new }
{
    listed(running::run(file, out))
}

// List check: is the value list right?
#[unsafe(no_mangle)]
pub extern "C" fn prismfleece_check(file: &[u8], list: &[u8]) -> u64
    ensures { CheckTold file.now list.now result }
{
    match checking::check(file, list) {
        Err(refused) => refusal(refused),
        Ok(right) => u64::from(right),
    }
}

// Build marks: one byte per cell in `out`.
#[unsafe(no_mangle)]
pub extern "C" fn prismfleece_marks(file: &[u8], out: &mut [u8]) -> u64
    ensures { MarksTold file.now out.old result out.new }
{
    written(building::build_marks(file, out))
}

// Reducing: the reduced file in `out`.
#[unsafe(no_mangle)]
pub extern "C" fn prismfleece_reduce(file: &[u8], out: &mut [u8]) -> u64
    ensures { ReduceTold file.now out.old result out.new }
{
    written(reducing::reduce(file, out))
}

// Typed text: its case file in `out`.
#[unsafe(no_mangle)]
pub extern "C" fn prismfleece_text(text: &[u8], out: &mut [u8]) -> u64
    ensures { TextTold text.now out.old result out.new }
{
    written(typing::read_text(text, out).map_err(cut_place))
}
