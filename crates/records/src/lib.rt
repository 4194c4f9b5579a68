// The records of cells and events, written into a lent buffer.

#![tactic(auto)]

ghost use Rattle.std.specs.Prelude.{[], ◌∷◌, ◌≡◌, ◌+◌, ◌≤◌, length, get_or};
ghost use Rattle.std.proofs.lemmas.List.Edits.{sets};
ghost use Rattle.model.specs.Format.{cell_bytes, event_bytes};
ghost use Rattle.cells.specs.Cells.{as_cell, as_event};

use cells::{Cell, Event};

// The two bytes of a mark.
pub fn put_mark(out: &mut [u8], at: usize, text: &[u8; 2])
    requires { at + 2 ≤ length out.old }
    ensures { out.new ≡ sets out.old at (get_or text.now 0 0 ∷ get_or text.now 1 0 ∷ []) }
{
    out[at] = text[0];
    out[at + 1] = text[1];
}

// A mark, and one field byte.
fn put_field(out: &mut [u8], at: usize, text: &[u8; 2], a: u8)
    requires { at + 3 ≤ length out.old }
    ensures { out.new ≡ sets out.old at (get_or text.now 0 0 ∷ get_or text.now 1 0 ∷ a ∷ []) }
{
    put_mark(out, at, text);
    out[at + 2] = a;
}

// A mark, and two field bytes.
fn put_fields(out: &mut [u8], at: usize, text: &[u8; 2], a: u8, b: u8)
    requires { at + 4 ≤ length out.old }
    ensures { out.new ≡ sets out.old at (get_or text.now 0 0 ∷ get_or text.now 1 0 ∷ a ∷ b ∷ []) }
{
    put_field(out, at, text, a);
    out[at + 3] = b;
}

// The bytes of a cell's record.
pub fn size_of(k: Cell) -> usize
    ensures { result ≡ length (cell_bytes (as_cell k)) }
{
    match k {
        Cell::Variable => 2,
        Cell::Atom(_) | Cell::Pair(_, _) | Cell::Seal(_, _) | Cell::Apply(_, _) => 4,
    }
}

// The record of a cell.
pub fn put_cell(out: &mut [u8], at: usize, k: Cell)
    requires { at + length (cell_bytes (as_cell k)) ≤ length out.old }
    ensures { out.new ≡ sets out.old at (cell_bytes (as_cell k)) }
{
    match k {
        Cell::Atom(n) => {
            let [high, low] = n.to_be_bytes();
            put_fields(out, at, b"AT", high, low);
        }
        Cell::Variable => put_mark(out, at, b"VA"),
        Cell::Pair(l, r) => put_fields(out, at, b"PR", l, r),
        Cell::Seal(b, s) => put_fields(out, at, b"SE", b, s),
        Cell::Apply(f, a) => put_fields(out, at, b"AP", f, a),
    }
}

// The record of an event.
pub fn put_event(out: &mut [u8], at: usize, e: Event)
    requires { at + 3 ≤ length out.old }
    ensures { out.new ≡ sets out.old at (event_bytes (as_event e)) }
{
    match e {
        Event::Make(c) => put_field(out, at, b"MK", c),
        Event::Learn(c) => put_field(out, at, b"LN", c),
    }
}
