// Reads a case file from standard input, of any length, and prints the reply to its run. What cannot be read or written is told on standard error.

#![tactic(auto)]

ghost use Rattle.std.specs.Prelude.{◌≤◌, length};
ghost use Rattle.run.specs.Answers.{Answers};

use input::read_start;
use std::io;
use std::io::Write;

// The reply to an input of which the first n bytes of `start` were read.
fn answer(start: &[u8], n: usize, out: &mut [u8]) -> usize
    requires { (899 ≤ length start.now) × (n ≤ length start.now) × (1437 ≤ length out.old) }
    ensures { Answers start.now n out.old result out.new }
{
    printing::write_reply(&start[..n], out)
}

// Prints it, in one write where the system takes it whole; or tells that it cannot be written.
fn print_answer<O: Write, W: Write>(
    start: &[u8],
    n: usize,
    output: &mut O,
    errors: &mut W,
) -> io::Result<()>
    requires { (899 ≤ length start.now) × (n ≤ length start.now) }
{
    let mut out = [0u8; 1437];
    let size = answer(start, n, &mut out);
    match output.write_all(&out[..size]) {
        Ok(()) => Ok(()),
        Err(e) => {
            errors.write_all(b"run: the reply cannot be written\n")?;
            Err(e)
        }
    }
}

// What failed has been told, so the status is 0 all the same.
fn main(rt: HostRuntime) {
    let mut start = [0u8; 899];
    let mut errors = rt.stderr();
    let told = match read_start(&mut rt.stdin(), &mut start) {
        Ok(n) => print_answer(&start, n, &mut rt.stdout(), &mut errors),
        Err(_) => Write::write_all(&mut errors, b"run: the input cannot be read\n"),
    };
    let _ = told;
}
