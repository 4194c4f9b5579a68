// The occurs check: a cell is marked if all parts of the cell that stands for its class are marked.
ghost use Rattle.std.specs.Prelude.{◌≡◌, true, false, ◌+◌, ◌≤◌, eqb, length, get_or};
ghost use Rattle.model.specs.Stored.{table_in};
ghost use Rattle.theory.specs.Cells.{class_at};
ghost use Rattle.classes.specs.Kept.{Finite, Unmet, Kept};
ghost use Rattle.classes.specs.Peel.{Done, class_table, Peeled, Fresh, Peels, AllDone};

use super::Row;
use super::alike::class_of;
use cells::{Parts, Table, Words, cell_at, parts_of};

// Whether the cell c is marked.
fn marked(marks: &Row, c: u8) -> bool
    requires { length marks.now ≡ 129 }
    ensures { result ≡ eqb (get_or marks.now c 0) 1 }
{
    marks.get(usize::from(c)) == Some(&1)
}

// Whether the parts of the cell that stands for the class of c are all marked.
#[tactic(auto, using(crate::proofs::PeelLaws::part_arg, crate::proofs::PeelLaws::part_left, crate::proofs::PeelLaws::part_right))]
fn ready(words: &Words, rep: &Row, done: &Row, c: u8) -> bool
    requires { length done.now ≡ 129 }
    ensures yes { result ≡ true → Done done.now (class_table (table_in words.now) rep.now c) }
    ensures no { result ≡ false → Done done.now (class_table (table_in words.now) rep.now c) → ⊥ }
{
    match parts_of(cell_at(words, class_of(rep, usize::from(c)))) {
        Parts::None => true,
        Parts::One(a) => marked(done, a),
        Parts::Two(l, r) => marked(done, r) && marked(done, l),
    }
}

// Whether the cell c is to be marked.
fn fresh(words: &Words, rep: &Row, done: &Row, c: u8) -> bool
    requires { length done.now ≡ 129 }
    ensures { Fresh (class_table (table_in words.now) rep.now) done.now c result }
{
    !marked(done, c) && ready(words, rep, done, c)
}

// Marks each cell whose class has no part that is not marked, once over the cells and the first one beyond them; says whether there were any.
#[inline(never)]
fn peel(table: &Table, rep: &Row, done: &mut Row) -> bool
    requires peeled { Peeled (class_table (table_in table.now.words) rep.now) done.old }
    ensures { Peels (class_table (table_in table.now.words) rep.now) done.old (table.now.count + 1) done.new result }
{
    let n = table.count;
    let mut changed = false;
    for c in 0..n + 1 {
        if fresh(&table.words, rep, done, c as u8) {
            done[c] = 1;
            changed = true;
        }
    }
    changed
}

// Whether the cells up to n are all marked.
fn all_done(done: &Row, n: usize) -> bool
    requires { n ≤ 128 }
    ensures { AllDone done.now (n + 1) result }
{
    (0..n + 1).all(|c| done[c] == 1)
}

// Whether the classes come round nowhere: cells are marked until nothing changes, and then all are.
pub fn acyclic(table: &Table, rep: Row) -> bool
    requires kept { Kept table.now.count (table_in table.now.words) rep }
    ensures yes { result ≡ true → Finite (table_in table.now.words) (class_at rep) }
    ensures no { result ≡ false → Unmet (table_in table.now.words) (class_at rep) ×
        (Finite (table_in table.now.words) (class_at rep) → ⊥) }
{
    let n = table.count;
    let mut done = [0u8; 129];
    while peel(table, &rep, &mut done) {}
    all_done(&done, n)
}
