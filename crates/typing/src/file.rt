// The bytes of the file that the lines say.
ghost use Rattle.std.specs.Prelude.{◌++◌, ◌≡◌, ◌+◌, ◌*◌, ◌≤◌, length};
ghost use Rattle.std.proofs.lemmas.List.Edits.{sets};
ghost use Rattle.model.specs.Format.{Kind, mark, cell_bytes, event_bytes, joined};
ghost use Rattle.model.specs.Stored.{table_in};
ghost use Rattle.typing.specs.File.{up_to, events_in};

use cells::{Run, Words, cell_at, event_at};
use records::{put_cell, put_event, put_mark, size_of};

// How many bytes the records of so many cells take. The cells so far are no table, as a variable's word has its number added: so words, and how many of them.
pub fn cells_size(table: &Words, n: usize) -> usize
    requires { n ≤ 128 }
    ensures { (result ≡ length (joined cell_bytes (up_to (table_in table.now) n))) × (result ≤ 4 * n) }
{
    let mut size: usize = 0;
    for c in 0..n {
        size += size_of(cell_at(table, c));
    }
    size
}

// The records of the cells, from the front of `out`: words and how many of them, as above.
pub fn put_cells(out: &mut [u8], table: &Words, n: usize)
    requires { (n ≤ 128) × (length (joined cell_bytes (up_to (table_in table.now) n)) ≤ length out.old) }
    ensures { out.new ≡ sets out.old 0 (joined cell_bytes (up_to (table_in table.now) n)) }
{
    let mut at: usize = 0;
    for c in 0..n {
        let k = cell_at(table, c);
        put_cell(out, at, k);
        at += size_of(k);
    }
}

// The records of the events and the end, from `start` on.
pub fn put_events(out: &mut [u8], start: usize, run: &Run, n: usize)
    requires { (n ≤ 128) × (start + 3 * n + 2 ≤ length out.old) }
    ensures { out.new ≡ sets out.old start (joined event_bytes (up_to (events_in run.now) n) ++ mark Kind.End) }
{
    for p in 0..n {
        put_event(out, start + 3 * p, event_at(run, p));
    }
    put_mark(out, start + 3 * n, b"EN");
}
