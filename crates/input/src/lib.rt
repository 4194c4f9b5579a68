// The front of an input, read into a lent buffer.

#![tactic(auto)]

ghost use Rattle.std.specs.Prelude.{◌≤◌, length, IfOk};
ghost use Rattle.input.specs.Reading.{AllRead};

use std::io;
use std::io::Read;

// Reads until the buffer is full or the input ends, and returns how many bytes there are. After an error nothing is said of the buffer.
pub fn read_start<R: Read>(input: &mut R, start: &mut [u8]) -> io::Result<usize>
    ensures filled { IfOk result (λ n. n ≤ length start.new) }
    ensures bytes { IfOk result (AllRead (R.remaining input.old) (R.remaining input.new) start.new) }
{
    let mut done = 0;
    while done < start.len() {
        let n = input.read(&mut start[done..])?;
        if n == 0 {
            return Ok(done);
        }
        done += n;
    }
    Ok(done)
}
