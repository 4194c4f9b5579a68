// Lines: a word, a list, a line feed; the event of a line, and why it is refused.
ghost use Rattle.std.specs.Prelude.{◌≡◌, ℕ, ◌+◌, ◌≤◌, ◌<◌, length};
ghost use Rattle.model.specs.Case.{VA};
ghost use Rattle.model.specs.Stored.{table_in};
ghost use Rattle.theory.specs.Decides.{Decides};
ghost use Rattle.typing.specs.Lines.{Matched, WordRead, event_of, RestRead, LineFoundAs, LooseSays, with_event, Taken, LineRead};

use super::message::{has, list, past};
use super::number::wrong;
use super::store::Store;
use cells::{Event, Run, Words, event_word, is_variable};
use refusals::{Fault, Refusal};

// What the lines so far say: their cells and their events, in a row of fixed size with its count.
#[derive(Clone, Copy)]
pub struct Lines {
    pub store: Store,
    pub run: Run,
    pub events: usize,
}

// The word of a line.
#[derive(Clone, Copy, Debug, PartialEq, Eq)]
enum Word {
    Learn,
    Make,
}

// How many bytes of the word stand at `at`.
fn matched(text: &[u8], at: usize, word: &[u8]) -> usize
    requires { at ≤ length text.now }
    ensures { Matched text.now at word.now result }
{
    for i in 0..word.len() {
        if !has(text, at + i, word[i]) {
            return i;
        }
    }
    word.len()
}

// The word at `at`, and the position behind it. The two begin with different letters.
fn read_word(text: &[u8], at: usize) -> Result<(Word, usize), Refusal>
    requires { at ≤ length text.now }
    ensures { WordRead text.now at result }
{
    let learnt = matched(text, at, b"learn ");
    if learnt == 6 {
        return Ok((Word::Learn, at + 6));
    }
    let made = matched(text, at, b"make ");
    if made == 5 {
        return Ok((Word::Make, at + 5));
    }
    if made == 0 {
        return Err(wrong(at + learnt));
    }
    Err(wrong(at + made))
}

// The event of a line, by its word and the cell of its list.
fn event_of(word: Word, cell: u8) -> Event
    ensures { result ≡ event_of word cell }
{
    match word {
        Word::Learn => Event::Learn(cell),
        Word::Make => Event::Make(cell),
    }
}

// The list and the line feed behind a word: the position behind them and the list's cell.
fn read_rest(text: &[u8], at: usize, store: &mut Store) -> Result<(usize, u8), Refusal>
    requires { at ≤ length text.now }
    ensures { RestRead text.now at store.old result store.new }
{
    let (to, cell) = list(text, at, 17, store)?;
    let end = past(text, to, b'\n')?;
    Ok((end, cell))
}

// The line at `at`: the position behind it and its event; its cells are entered.
fn find_line(text: &[u8], at: usize, store: &mut Store) -> Result<(usize, Event), Refusal>
    requires { at ≤ length text.now }
    ensures { LineFoundAs text.now at store.old result store.new }
{
    let (word, behind) = read_word(text, at)?;
    let (to, cell) = read_rest(text, behind, store)?;
    Ok((to, event_of(word, cell)))
}

// Is one of the cells from `from` on a variable?
fn new_variable(words: &Words, from: usize, count: usize) -> bool
    ensures { Decides result ((c : ℕ) × (from ≤ c) × (c < count) × (table_in words.now c ≡ VA)) }
{
    (from..count).any(|c| is_variable(words, c))
}

// Is the event an LN that shows a variable no earlier MK held, where the line's cells begin at `from`? All variables before are held, so that is one that is new.
fn is_loose(store: &Store, from: usize, event: Event) -> bool
    ensures { LooseSays from store.now event result }
{
    match event {
        Event::Make(_) => false,
        Event::Learn(_) => new_variable(&store.words, from, store.count),
    }
}

// Puts one more event behind the others.
fn with_event(lines: &mut Lines, event: Event)
    requires { lines.old.events < 128 }
    ensures { lines.new ≡ with_event lines.old lines.old.store event }
{
    let at = lines.events;
    lines.run[at] = event_word(event);
    lines.events = at + 1;
}

// Takes a line that begins at `at` and ends at `to`, or refuses it. Its cells are entered, from `from` on.
fn take(
    lines: &mut Lines,
    from: usize,
    event: Event,
    at: usize,
    to: usize,
) -> Result<usize, Refusal>
    ensures { Taken lines.old from event at to result lines.new }
{
    if lines.store.full || 128 <= lines.events {
        return Err(Refusal {
            fault: Fault::TooMany,
            place: at,
        });
    }
    if is_loose(&lines.store, from, event) {
        return Err(Refusal {
            fault: Fault::LooseVariable,
            place: at,
        });
    }
    with_event(lines, event);
    Ok(to)
}

// Takes the line at `at`, behind those so far, and says the position behind it.
#[tactic(auto, using(crate::proofs::TakeLaws::read_misread, crate::proofs::TakeLaws::read_taken))]
pub fn read_line(text: &[u8], at: usize, lines: &mut Lines) -> Result<usize, Refusal>
    requires { at < length text.now }
    ensures { LineRead text.now at lines.old result lines.new }
{
    let from = lines.store.count;
    let (to, event) = find_line(text, at, &mut lines.store)?;
    take(lines, from, event, at, to)
}
