// Reads typed lines from standard input and writes their case file to standard output. A refusal, and what cannot be read or written, is told on standard error.

#![tactic(auto)]

mod refusal;

ghost use Rattle.std.specs.Prelude.{◌≤◌, length, take, IfSome, OnOk};
ghost use Rattle.std.specs.Io.KnownBytes.{Appends};
ghost use Rattle.refusals.specs.Numbers.{number_of};
ghost use Rattle.enter.specs.Enters.{Enters, Answers, Does};
ghost use Rattle.enter.specs.Refusal.{line_of, column_of, refusal_line};

use input::read_start;
use refusals::Refusal;
use std::io;
use std::io::{Read, Write};

// The reply to a text. A file has at most 898 bytes, 128 cells of four, 128 events of three and two at its end, so none is refused with 9.
fn file_of(text: &[u8], out: &mut [u8]) -> Result<usize, Refusal>
    requires { 898 ≤ length out.old }
    ensures { Enters text.now out.old result out.new }
{
    typing::read_text(text, out)
}

// Tells a refusal, with the line and column of its place.
fn tell_refusal<W: Write>(text: &[u8], refusal: Refusal, errors: &mut W) -> io::Result<()>
    requires { length text.now ≤ 65536 }
    ensures { OnOk result (Appends (W.contents errors.old) (W.contents errors.new)
        (refusal_line (number_of refusal.fault) refusal.place (line_of text.now refusal.place) (column_of text.now refusal.place))) }
{
    let mut out = [0u8; 128];
    let spot = refusal::spot_of(text, refusal.place);
    let size = refusal::lay_refusal(refusal, spot, &mut out);
    errors.write_all(&out[..size])
}

// Writes the file of a text, in one write where the system takes it whole; or tells why there is none.
fn enter_text<O: Write, W: Write>(text: &[u8], output: &mut O, errors: &mut W) -> io::Result<()>
    requires { length text.now ≤ 65536 }
    ensures { OnOk result (Answers text.now (O.contents output.old) (O.contents output.new) (W.contents errors.old) (W.contents errors.new)) }
{
    let mut out = [0u8; 898];
    match file_of(text, &mut out) {
        Err(refusal) => tell_refusal(text, refusal, errors),
        Ok(size) => match output.write_all(&out[..size]) {
            Ok(()) => Ok(()),
            Err(e) => {
                errors.write_all(b"enter: the file cannot be written\n")?;
                Err(e)
            }
        },
    }
}

// Enters the first n bytes of the buffer, which has room for one byte more than a text may have.
fn enter_start<O: Write, W: Write>(
    start: &[u8],
    n: usize,
    output: &mut O,
    errors: &mut W,
) -> io::Result<()>
    requires { n ≤ length start.now }
    ensures { OnOk result (Does (take n start.now) (O.contents output.old) (O.contents output.new) (W.contents errors.old) (W.contents errors.new)) }
{
    if 65536 < n {
        return errors.write_all(b"enter: the input is longer than 65536 bytes\n");
    }
    enter_text(&start[..n], output, errors)
}

// Enters what the input gives. What cannot be read or written is told, and returned.
fn enter<R: Read, O: Write, W: Write>(
    input: &mut R,
    output: &mut O,
    errors: &mut W,
) -> io::Result<()>
    ensures { OnOk result (IfSome (R.remaining input.old) (λ bytes.
        Does bytes (O.contents output.old) (O.contents output.new) (W.contents errors.old) (W.contents errors.new))) }
{
    let mut start = [0u8; 65537];
    match read_start(input, &mut start) {
        Ok(n) => enter_start(&start, n, output, errors),
        Err(_) => {
            errors.write_all(b"enter: the input cannot be read\n")?;
            Err(io::Error::other("the input cannot be read"))
        }
    }
}

// What failed has been told, so the status is 0 all the same.
fn main(rt: HostRuntime) {
    let entered = enter(&mut rt.stdin(), &mut rt.stdout(), &mut rt.stderr());
    let _ = entered;
}
