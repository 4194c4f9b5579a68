// A refusal as a line of text, with the line and column of its place.
ghost use Rattle.std.specs.Prelude.{◌≡◌, cond, ◌+◌, ◌≤◌, eqb, length};
ghost use Rattle.refusals.specs.Numbers.{number_of};
ghost use Rattle.lines.specs.Put.{Put};
ghost use Rattle.enter.specs.Refusal.{line_of, column_of, refusal_line};

use lines::{put_text, put_told};
use refusals::Refusal;

// A line and a column, from 1.
#[derive(Drop)]
pub struct Spot {
    pub line: usize,
    pub column: usize,
}

// The next byte's spot, behind the byte b.
fn next_spot(spot: Spot, b: u8) -> Spot
    requires { (spot.line ≤ 65536) × (spot.column ≤ 65536) }
    ensures { (result.line ≡ spot.line + cond (eqb b 10) 1 0) × (result.column ≡ cond (eqb b 10) 1 (spot.column + 1)) }
{
    if b == b'\n' {
        return Spot {
            line: spot.line + 1,
            column: 1,
        };
    }
    Spot {
        line: spot.line,
        column: spot.column + 1,
    }
}

// The spot of the byte at a place, or of the text's end.
pub fn spot_of(text: &[u8], place: usize) -> Spot
    requires { length text.now ≤ 65536 }
    ensures { (result.line ≡ line_of text.now place) × (result.column ≡ column_of text.now place) }
{
    let mut spot = Spot { line: 1, column: 1 };
    for (i, b) in text.iter().enumerate() {
        if i == place {
            return spot;
        }
        spot = next_spot(spot, *b);
    }
    spot
}

// Puts the line of a refusal at the front.
pub fn lay_refusal(refusal: Refusal, spot: Spot, out: &mut [u8]) -> usize
    requires { 128 ≤ length out.old }
    ensures { Put (refusal_line (number_of refusal.fault) refusal.place spot.line spot.column) out.old 0 out.new result }
{
    let number = refusal.fault.number();
    let numbered = put_told(b"refused ", number as usize, 0, out);
    let placed = put_told(b" at ", refusal.place, numbered, out);
    let lined = put_told(b", line ", spot.line, placed, out);
    let columned = put_told(b", column ", spot.column, lined, out);
    put_text(b"\n", columned, out)
}
