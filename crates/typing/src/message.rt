// Messages and lists: two readers that call each other. The nesting still allowed falls at each bracket and at each key; a comma costs no frame.
// What is read is told as the position behind it and its cell, and its cells are entered. A refusal tells the first byte that no line could have there, or the first one nested too deep.
ghost use Rattle.std.specs.Prelude.{◌≡◌, ℕ, ◌-◌, ◌≤◌, ◌<◌, length, get_or};
ghost use Rattle.theory.specs.Decides.{Decides};
ghost use Rattle.typing.specs.Readers.{LeadAt, PastByte, MessageRead, ListRead};

use super::number::{read_number, wrong};
use super::store::{Store, enter, no_items, pair_up, with_item};
use cells::{Cell, word_of};
use refusals::{Fault, Refusal};

// What begins at a place.
#[derive(Clone, Copy, Debug, PartialEq, Eq)]
pub enum Lead {
    Atom,
    Variable,
    Apply,
    Seal,
    Group,
}

// Does the byte stand there?
pub fn has(text: &[u8], at: usize, byte: u8) -> bool
    ensures { Decides result ((at < length text.now) × (get_or text.now at 0 ≡ byte)) }
{
    at < text.len() && text[at] == byte
}

// The position behind the byte, if it stands there.
pub fn past(text: &[u8], at: usize, byte: u8) -> Result<usize, Refusal>
    ensures { PastByte text.now at byte result }
{
    if has(text, at, byte) {
        Ok(at + 1)
    } else {
        Err(wrong(at))
    }
}

// What begins there, by the first byte.
fn lead_at(text: &[u8], at: usize) -> Option<Lead>
    ensures { LeadAt text.now at result }
{
    if text.len() <= at {
        return None;
    }
    match text[at] {
        b'a' => Some(Lead::Atom),
        b'X' => Some(Lead::Variable),
        b'f' => Some(Lead::Apply),
        b'{' => Some(Lead::Seal),
        b'(' => Some(Lead::Group),
        _ => None,
    }
}

// An atom, whose letter stands at `at`.
fn atom(text: &[u8], at: usize, store: &mut Store) -> Result<(usize, u8), Refusal>
    requires { (at < length text.now) × (get_or text.now at 0 ≡ 97) }
    ensures { (d : ℕ) → d ≤ 16 → MessageRead text.now at d store.old result store.new }
{
    let (n, to) = read_number(text, at + 1, 65535)?;
    Ok((to, enter(store, word_of(Cell::Atom(n as u16)))))
}

// A variable, whose letter stands at `at`: its word has its number.
fn variable(text: &[u8], at: usize, store: &mut Store) -> Result<(usize, u8), Refusal>
    requires { (at < length text.now) × (get_or text.now at 0 ≡ 88) }
    ensures { (d : ℕ) → d ≤ 16 → MessageRead text.now at d store.old result store.new }
{
    let (n, to) = read_number(text, at + 1, 65535)?;
    Ok((to, enter(store, word_of(Cell::Variable) + n)))
}

// A list in round brackets, the first of which stands at `at`.
#[cycle(apply_group_list_message_seal)]
fn group(text: &[u8], at: usize, deep: usize, store: &mut Store) -> Result<(usize, u8), Refusal>
    requires { (at < length text.now) × (get_or text.now at 0 ≡ 40) × (0 < deep) × (deep ≤ 17) }
    ensures { MessageRead text.now at (17 - deep) store.old result store.new }
{
    let (to, cell) = list(text, at + 1, deep - 1, store)?;
    let end = past(text, to, b')')?;
    Ok((end, cell))
}

// An application, whose letter stands at `at`.
#[cycle(apply_group_list_message_seal)]
fn apply(text: &[u8], at: usize, deep: usize, store: &mut Store) -> Result<(usize, u8), Refusal>
    requires { (at < length text.now) × (get_or text.now at 0 ≡ 102) × (0 < deep) × (deep ≤ 17) }
    ensures { MessageRead text.now at (17 - deep) store.old result store.new }
{
    let (f, brace) = read_number(text, at + 1, 255)?;
    let open = past(text, brace, b'(')?;
    let (to, cell) = list(text, open, deep - 1, store)?;
    let end = past(text, to, b')')?;
    Ok((end, enter(store, word_of(Cell::Apply(f as u8, cell)))))
}

// A seal, whose brace stands at `at`.
#[cycle(apply_group_list_message_seal)]
fn seal(text: &[u8], at: usize, deep: usize, store: &mut Store) -> Result<(usize, u8), Refusal>
    requires { (at < length text.now) × (get_or text.now at 0 ≡ 123) × (0 < deep) × (deep ≤ 17) }
    ensures { MessageRead text.now at (17 - deep) store.old result store.new }
{
    let open = past(text, at + 1, b'|')?;
    let (to, body) = list(text, open, deep - 1, store)?;
    let bar = past(text, to, b'|')?;
    let brace = past(text, bar, b'}')?;
    let (end, key) = message(text, brace, deep - 1, store)?;
    Ok((end, enter(store, word_of(Cell::Seal(body, key)))))
}

// The message at `at`, with so much nesting still allowed.
#[cycle(apply_group_list_message_seal)]
fn message(text: &[u8], at: usize, deep: usize, store: &mut Store) -> Result<(usize, u8), Refusal>
    requires { (at ≤ length text.now) × (deep ≤ 17) }
    ensures { MessageRead text.now at (17 - deep) store.old result store.new }
{
    let Some(lead) = lead_at(text, at) else {
        return Err(wrong(at));
    };
    if deep == 0 {
        return Err(Refusal {
            fault: Fault::TooDeep,
            place: at,
        });
    }
    match lead {
        Lead::Atom => atom(text, at, store),
        Lead::Variable => variable(text, at, store),
        Lead::Apply => apply(text, at, deep, store),
        Lead::Seal => seal(text, at, deep, store),
        Lead::Group => group(text, at, deep, store),
    }
}

// The list at `at`, with so much nesting still allowed: messages joined by commas.
#[cycle(apply_group_list_message_seal)]
pub fn list(text: &[u8], at: usize, deep: usize, store: &mut Store) -> Result<(usize, u8), Refusal>
    requires { (at ≤ length text.now) × (deep ≤ 17) }
    ensures { ListRead text.now at (17 - deep) store.old result store.new }
{
    let mut items = no_items();
    let mut i = at;
    loop {
        let (to, cell) = message(text, i, deep, store)?;
        if !has(text, to, b',') {
            return Ok((to, pair_up(store, &items, cell)));
        }
        with_item(&mut items, cell);
        i = to + 1;
    }
}
