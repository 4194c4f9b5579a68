// The form of a value list.
ghost use Rattle.std.specs.Prelude.{◌≡◌, ◌≤◌, length};
ghost use Rattle.model.specs.Stored.{table_in};
ghost use Rattle.model.specs.Values.{Entry};
ghost use Rattle.theory.specs.Decides.{Decides};
ghost use Rattle.checking.specs.Form.{FirstBad, Owned};

use cells::{Cell, Table, Words, is_variable, word_of};

// Has the entry x of the cell c the form: for a variable a cell that is no variable, or 255; for any other cell its own number?
fn fits(table: &Table, c: usize, x: u8) -> bool
    ensures { Decides result (Entry (table_in table.now.words) table.now.count c x) }
{
    let n = table.count;
    let i = usize::from(x);
    if !is_variable(&table.words, c) {
        return i == c;
    }
    i == 255 || i < n && !is_variable(&table.words, i)
}

// The cell of the first entry of bad form, if there is one.
pub fn first_bad(table: &Table, list: &[u8]) -> Option<usize>
    requires { length list.now ≡ table.now.count }
    ensures { FirstBad (table_in table.now.words) table.now.count list.now result }
{
    let n = table.count;
    (0..n).find(|c| !fits(table, *c, list[*c]))
}

// The table with his own name for each cell whose entry is 255.
pub fn put_own(words: &Words, list: &[u8]) -> Words
    requires { length list.now ≤ 128 }
    ensures { Owned (table_in words.now) list.now (table_in result) }
{
    let mut out = *words;
    for (c, x) in list.iter().enumerate() {
        if *x == 255 {
            out[c] = word_of(Cell::Atom(0));
        }
    }
    out
}
