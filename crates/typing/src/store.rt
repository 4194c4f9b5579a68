// The cells so far: a message that is completed is entered, if it is not there.
ghost use Rattle.std.specs.Prelude.{◌≡◌, ◌≤◌};
ghost use Rattle.typing.specs.Store.{FoundAt, put, added, Enters, no_items, with_item, PairsUp};

use cells::{Cell, Words, word_of};

// The cells so far, each as the word of its cell, a variable's with its number added: equal messages have equal words. `full` says that there are more than 128; then the words say nothing.
// A state and no reply: a line with too many is refused only once it is read, as a byte at fault comes first. Nothing is allocated, so a row of fixed size has its count beside it.
#[derive(Clone, Copy)]
pub struct Store {
    pub words: Words,
    pub count: usize,
    pub full: bool,
}

// The cells of a list's messages up to the last comma. `more` says that there are more than 128, as `full` does, and is as much a state.
#[derive(Clone, Copy)]
pub struct Items {
    pub cells: [u8; 128],
    pub count: usize,
    pub more: bool,
}

// The first place of the word among so many.
fn find(words: &Words, count: usize, word: u32) -> Option<usize>
    ensures { FoundAt words.now count word result }
{
    words.iter().take(count).position(|w| *w == word)
}

// Puts one more word behind the cells, if there is room, and says its cell.
fn add(store: &mut Store, word: u32) -> u8
    ensures { put store.new result ≡ added store.old word }
{
    let at = store.count;
    if 128 <= at {
        store.full = true;
        return 0;
    }
    store.words[at] = word;
    store.count = at + 1;
    at as u8
}

// Enters the word, if it is not there, and says its cell.
pub fn enter(store: &mut Store, word: u32) -> u8
    ensures { Enters store.old word (put store.new result) }
{
    match find(&store.words, store.count, word) {
        Some(c) => c as u8,
        None => add(store, word),
    }
}

// No items.
pub fn no_items() -> Items
    ensures { result ≡ no_items }
{
    Items {
        cells: [0; 128],
        count: 0,
        more: false,
    }
}

// Puts one more item behind the others.
pub fn with_item(items: &mut Items, cell: u8)
    ensures { items.new ≡ with_item items.old cell }
{
    let at = items.count;
    if 128 <= at {
        items.more = true;
        return;
    }
    items.cells[at] = cell;
    items.count = at + 1;
}

// Enters the pairs of a list, the last one first, and says the cell of the whole: each item is paired with what stands behind it. More than 128 pairs are too many.
pub fn pair_up(store: &mut Store, items: &Items, last: u8) -> u8
    requires { items.now.count ≤ 128 }
    ensures { PairsUp store.old items.now last (put store.new result) }
{
    let mut behind = last;
    for i in (0..items.count).rev() {
        behind = enter(store, word_of(Cell::Pair(items.cells[i], behind)));
    }
    if items.more {
        store.full = true;
    }
    behind
}
