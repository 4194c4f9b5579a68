// Text and numbers in decimal, put into a lent buffer behind what stands there. The promises of the printed lines say each byte, which `write!` does not.

#![tactic(auto)]

ghost use Rattle.std.specs.Prelude.{[], ◌∷◌, ◌+◌, ◌<◌, ◌≤◌, length};
ghost use Rattle.grammar.specs.Grammar.{decimal};
ghost use Rattle.lines.specs.Put.{Put, told};

// Puts a text into the buffer, and replies where it ends.
pub fn put_text(text: &[u8], at: usize, out: &mut [u8]) -> usize
    requires { at + length text.now ≤ length out.old }
    ensures { Put text.now out.old at out.new result }
{
    let end = at + text.len();
    out[at..end].copy_from_slice(text);
    end
}

// Puts a digit: by hand, as the promises say each byte and the wrong version `digits_swapped` is about it.
fn put_digit(n: usize, at: usize, out: &mut [u8]) -> usize
    requires { (n < 10) × (at < length out.old) }
    ensures { Put ((48 + n) ∷ []) out.old at out.new result }
{
    out[at] = b'0' + n as u8;
    at + 1
}

// Puts a number in decimal, its last digit behind the others.
fn put_number(n: usize, at: usize, out: &mut [u8]) -> usize
    requires { at + length (decimal n) ≤ length out.old }
    ensures { Put (decimal n) out.old at out.new result }
{
    if n < 10 {
        return put_digit(n, at, out);
    }
    let last = put_number(n / 10, at, out);
    put_digit(n % 10, last, out)
}

// Puts a text and a number behind it.
pub fn put_told(text: &[u8], n: usize, at: usize, out: &mut [u8]) -> usize
    requires { at + length (told text.now n) ≤ length out.old }
    ensures { Put (told text.now n) out.old at out.new result }
{
    let next = put_text(text, at, out);
    put_number(n, next, out)
}
