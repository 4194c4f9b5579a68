// The reader of typed text: lines to the bytes of their case file, or a refusal with its fault and place.

#![tactic(auto)]

mod number; // numbers in decimal
mod store; // the cells so far
mod message; // messages and lists
mod line; // lines
mod file; // bytes

ghost use Rattle.std.specs.Prelude.{◌≡◌, List, [], ◌≤◌};
ghost use Rattle.grammar.specs.Typed.{Entry};
ghost use Rattle.grammar.specs.Text.{said, Replied, TextReply};
ghost use Rattle.typing.specs.Lines.{Kept};
ghost use Rattle.typing.specs.Reply.{Refused, Written};

use line::Lines;
use refusals::{Fault, Refusal};
use store::Store;

// No lines.
fn no_lines() -> Lines
    ensures { Kept [] result }
{
    let store = Store {
        words: [0; 128],
        count: 0,
        full: false,
    };
    Lines {
        store,
        run: [0; 128],
        events: 0,
    }
}

// Writes the file of the lines at the front of `out`, if it fits, and says how many bytes it takes.
fn write_file(lines: &Lines, out: &mut [u8]) -> Result<usize, Refusal>
    requires { (lines.now.store.count ≤ 128) × (lines.now.events ≤ 128) }
    ensures { (es : List Entry) → Kept es lines.now → Replied Refused Written out.old (said es) result out.new }
{
    let table = &lines.store.words;
    let count = lines.store.count;
    let cells = file::cells_size(table, count);
    let length = cells + 3 * lines.events + 2;
    if out.len() < length {
        return Err(Refusal {
            fault: Fault::ShortBuffer,
            place: length,
        });
    }
    file::put_cells(out, table, count);
    file::put_events(out, cells, &lines.run, lines.events);
    Ok(length)
}

// Reads typed text and writes its case file at the front of `out`: how many bytes it takes, or why the text is refused.
pub fn read_text(text: &[u8], out: &mut [u8]) -> Result<usize, Refusal>
    ensures { TextReply Refused Written text.now out.old result out.new }
{
    let mut lines = no_lines();
    let mut at = 0;
    while at < text.len() {
        at = line::read_line(text, at, &mut lines)?;
    }
    write_file(&lines, out)
}
