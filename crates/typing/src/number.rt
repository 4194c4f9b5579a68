// Numbers in decimal.
ghost use Rattle.std.specs.Prelude.{◌≡◌, ◌≤◌, length};
ghost use Rattle.typing.specs.Readers.{DigitAt, NumberRead, wrong_at};

use refusals::{Fault, Refusal};

// The first byte that no line could have there.
pub fn wrong(at: usize) -> Refusal
    ensures { result ≡ wrong_at at }
{
    Refusal {
        fault: Fault::WrongByte,
        place: at,
    }
}

// The digit at i, if there is one.
fn digit_at(text: &[u8], i: usize) -> Option<u8>
    ensures { DigitAt text.now i result }
{
    if i < text.len() && b'0' <= text[i] && text[i] <= b'9' {
        Some(text[i] - b'0')
    } else {
        None
    }
}

// The number at `at`, without leading zeros, at most the bound, and the position behind it; or the first byte that no number could have there.
pub fn read_number(text: &[u8], at: usize, bound: u32) -> Result<(u32, usize), Refusal>
    requires at_in_bounds { at ≤ length text.now }
    requires le_bound { (9 ≤ bound) × (bound ≤ 65535) }
    ensures { NumberRead text.now at bound result }
{
    let Some(lead) = digit_at(text, at) else {
        return Err(wrong(at));
    };
    let mut n = u32::from(lead);
    // i ends behind the number, and that is a part of the reply: digits and not a range say where.
    let mut i = at + 1;
    while let Some(c) = digit_at(text, i) {
        let more = n * 10 + u32::from(c);
        if n == 0 || bound < more {
            return Err(wrong(i));
        }
        n = more;
        i += 1;
    }
    Ok((n, i))
}
