// The heights of the messages that the cells show.
ghost use Rattle.std.specs.Prelude.{◌≡◌, ℕ, ◌<◌, get_or};
ghost use Rattle.model.specs.Stored.{table_in};
ghost use Rattle.cells.specs.Cells.{as_cell};
ghost use Rattle.reducing.specs.Bare.{height_at, Heights};

use cells::{Cell, Parts, Table, cell_at, parts_of};
use classes::Row;

// What a row says of the cell d; 0 past its end.
fn row_at(bytes: &Row, d: u8) -> u8
    ensures { result ≡ get_or bytes.now d 0 }
{
    if d < 129 { bytes[usize::from(d)] } else { 0 }
}

// The height of a cell's message, from those of its parts.
fn height_of(k: Cell, heights: &Row) -> u8
    requires { (d : ℕ) → get_or heights.now d 0 < 255 }
    ensures { result ≡ height_at (λ d. get_or heights.now d 0) (as_cell k) }
{
    match parts_of(k) {
        Parts::None => 0,
        Parts::One(a) => row_at(heights, a) + 1,
        Parts::Two(a, b) => row_at(heights, a).max(row_at(heights, b)) + 1,
    }
}

// The heights of the messages that the cells show.
pub fn heights(table: &Table) -> Row
    ensures { Heights (table_in table.now.words) table.now.count result }
{
    let n = table.count;
    let mut high: Row = [0; 129];
    for c in 0..n {
        high[c] = height_of(cell_at(&table.words, c), &high);
    }
    high
}
