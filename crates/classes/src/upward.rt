// Closing upwards: cells whose parts are of the same classes are put into one class, until none are left.
// To find them, cells with parts are linked by their keys: `tops` has for each key one more than the highest linked cell, `links` for each linked cell one more than
// the next lower one of its key; 0 ends the links.
ghost use Rattle.std.specs.Prelude.{◌≡◌, ℕ, ◌≤◌, ◌<◌, get_or};
ghost use Rattle.model.specs.Stored.{table_in};
ghost use Rattle.theory.specs.Cells.{class_at};
ghost use Rattle.theory.specs.Decides.{Decides};
ghost use Rattle.cells.specs.Cells.{as_cell};
ghost use Rattle.classes.specs.Kept.{Solved};
ghost use Rattle.classes.specs.Links.{mix_of, key_of, Parted, Downward};
ghost use Rattle.classes.specs.Upward.{FellowTold, Fellow, Meets, Lifts, Raised};

use super::Row;
use super::alike::{Diff, class_byte, class_of, compare};
use super::joins::join;
use cells::{Cell, Parts, Table, Words, cell_at, parts_of};

// Three bytes in one.
fn mix(x: u8, y: u8, k: u8) -> u8
    ensures { result ≡ mix_of x y k }
{
    ((u32::from(x) * 17 + u32::from(y) + u32::from(k) * 91) % 256) as u8
}

// The key of a cell: cells that are alike by the classes of the parts share it.
#[tactic(auto, unfolding(crate::specs::Links::key_of))]
fn key_of(rep: &Row, k: Cell) -> u8
    ensures { result ≡ key_of (class_at rep.now) (as_cell k) }
{
    match k {
        Cell::Atom(_) => 0,
        Cell::Variable => 1,
        Cell::Pair(l, r) => mix(
            class_byte(rep, usize::from(l)),
            class_byte(rep, usize::from(r)),
            2,
        ),
        Cell::Seal(b, k) => mix(
            class_byte(rep, usize::from(b)),
            class_byte(rep, usize::from(k)),
            3,
        ),
        Cell::Apply(f, a) => mix(f, class_byte(rep, usize::from(a)), 4),
    }
}

// Has a cell parts?
fn has_parts(k: Cell) -> bool
    ensures { Decides result (Parted (as_cell k)) }
{
    !matches!(parts_of(k), Parts::None)
}

// Does d stand for its class, and is it alike c by the classes of the parts?
fn is_fellow(words: &Words, rep: &Row, c: usize, d: usize) -> bool
    ensures { FellowTold (table_in words.now) (class_at rep.now) c d result }
{
    class_of(rep, d) == d && matches!(compare(words, rep, c, d), Diff::Same)
}

// The lowest cell that is linked from `top` on, stands for its class and is alike c by the classes of the parts, or c.
fn fellow(table: &Table, rep: &Row, links: &Row, top: u8, c: u8) -> u8
    requires by_index { (d : ℕ) → get_or links.now d 0 ≤ d }
    requires top_le_c { (top ≤ c) × (c < table.now.count) }
    ensures { Fellow (table_in table.now.words) (class_at rep.now) links.now top c result }
{
    let mut best = c;
    let mut at = top;
    while at > 0 {
        let d = at - 1;
        let i = usize::from(d);
        at = links[i];
        if is_fellow(&table.words, rep, usize::from(c), i) {
            best = d;
        }
    }
    best
}

// The cell c, if it has parts and stands for its class, in one class with the lowest such cell that is alike, or linked; and whether it was joined.
fn meet(table: &Table, rep: &mut Row, tops: &mut [u8; 256], links: &mut Row, c: u8) -> bool
    requires solved { Solved table.now.count (table_in table.now.words) rep.old }
    requires downward { Downward c tops.old links.old }
    requires c_lt_n { c < table.now.count }
    ensures { Meets table.now.count (table_in table.now.words) c rep.old tops.old links.old
        rep.new tops.new links.new result }
{
    let i = usize::from(c);
    let k = cell_at(&table.words, i);
    if !has_parts(k) || class_of(rep, i) != i {
        return false;
    }
    let h = usize::from(key_of(rep, k));
    let top = tops[h];
    let t = fellow(table, rep, links, top, c);
    if t == c {
        links[i] = top;
        tops[h] = c + 1;
        return false;
    }
    *rep = join(table, *rep, t, c);
    true
}

// Each cell that stands for its class with the lowest such cell that is alike, once over the cells. Keys are by the classes that a cell was met with, so that after a
// join a cell may be missed; then this is not the last sweep. Says whether any were joined.
fn lift(table: &Table, rep: &mut Row) -> bool
    requires solved { Solved table.now.count (table_in table.now.words) rep.old }
    ensures { Lifts table.now.count (table_in table.now.words) rep.old table.now.count rep.new result }
{
    let n = table.count;
    let mut tops = [0u8; 256];
    let mut links = [0u8; 129];
    let mut changed = false;
    for c in 0..n {
        if meet(table, rep, &mut tops, &mut links, c as u8) {
            changed = true;
        }
    }
    changed
}

// Joins upwards until cells that are alike are of one class.
pub fn raise(table: &Table, start: Row) -> Row
    requires solved { Solved table.now.count (table_in table.now.words) start }
    ensures { Raised table.now.count (table_in table.now.words) start result }
{
    let mut rep = start;
    while lift(table, &mut rep) {}
    rep
}
