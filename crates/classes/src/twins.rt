// The first class array: cells that show equal trees are one class.
ghost use Rattle.std.specs.Prelude.{◌≡◌, ℕ, ◌+◌, ◌<◌, ◌≤◌};
ghost use Rattle.model.specs.Stored.{table_in};
ghost use Rattle.theory.specs.Cells.{class_at};
ghost use Rattle.cells.specs.Cells.{as_cell};
ghost use Rattle.classes.specs.Twins.{class_word, Worded, Earliest, First, Twin, Start};

use super::Row;
use super::alike::class_byte;
use cells::{Cell, Table, cell_at, word_of};

// The class word of the cell c, which is k: the word of k with the classes of its parts for the parts. A variable has one of its own.
#[tactic(auto, unfolding(crate::specs::Twins::class_word))]
fn class_word(rep: &Row, c: u8, k: Cell) -> u32
    ensures { result ≡ class_word (class_at rep.now) c (as_cell k) }
{
    match k {
        Cell::Atom(_) => word_of(k),
        Cell::Variable => word_of(k) + u32::from(c),
        Cell::Pair(l, r) => word_of(Cell::Pair(
            class_byte(rep, usize::from(l)),
            class_byte(rep, usize::from(r)),
        )),
        Cell::Seal(b, s) => word_of(Cell::Seal(
            class_byte(rep, usize::from(b)),
            class_byte(rep, usize::from(s)),
        )),
        Cell::Apply(f, a) => word_of(Cell::Apply(f, class_byte(rep, usize::from(a)))),
    }
}

// The lowest place that has the word of the place c.
fn first_same(words: &[u32; 129], c: u8) -> u8
    requires { c ≤ 128 }
    ensures { Earliest words.now c result }
{
    let w = words[usize::from(c)];
    let at = words.iter().position(|x| *x == w);
    at.map_or(c, |d| d as u8)
}

// The lowest cell that is alike c, where the entries and the class words below c are right; the class word of c is laid beside them. The cells beyond the table's all show
// his own name: they need no word, and their class is that of the first of them.
fn lowest(table: &Table, rep: &Row, words: &mut [u32; 129], c: u8) -> u8
    requires c_bound { c ≤ 128 }
    requires by_index { (i : ℕ) → i < c → First (table_in table.now.words) (class_at rep.now) i }
    requires worded_2 { Worded table.now.count (table_in table.now.words) (class_at rep.now) c words.old }
    ensures twin { Twin (table_in table.now.words) (class_at rep.now) c result }
    ensures worded { Worded table.now.count (table_in table.now.words) (class_at rep.now) (c + 1) words.new }
{
    let n = table.count;
    let i = usize::from(c);
    if n < i {
        return rep[n];
    }
    words[i] = class_word(rep, c, cell_at(&table.words, i));
    first_same(words, c)
}

// The first class array: cells that show equal trees are one class, upwards from the lowest cell.
pub fn start(table: &Table) -> Row
    ensures { Start table.now.count (table_in table.now.words) result }
{
    let mut rep = [0u8; 129];
    let mut words = [0u32; 129];
    for c in 0..129 {
        rep[c] = lowest(table, &rep, &mut words, c as u8);
    }
    rep
}
