// The marks that the sets of a step start from, and the bare cells.
ghost use Rattle.std.specs.Prelude.{Some, ◌≡◌, ℕ, ◌≤◌, ◌<◌, replicate};
ghost use Rattle.model.specs.Stored.{table_in, aim};
ghost use Rattle.theory.specs.Cells.{RunWords};
ghost use Rattle.theory.specs.Decides.{Decides};
ghost use Rattle.cells.specs.Cells.{as_event};
ghost use Rattle.knowledge.specs.Knowledge.{ClassRow, MarkRow};
ghost use Rattle.wants.specs.Starts.{Picks, EndsAt, BareAt, BareTo, KeyTold, Keyed, FreeAt, FreeSeen, DueTold, Due};

use cells::{
    Event, Opening, Run, Table, Words, cell_at, cell_within, event_at, is_variable, kin_at, opens,
};
use classes::{Row, class_of};
use knowledge::{Ends, cell, part_classes};

// The marks of `start`, and of what is picked at the numbers below n.
pub fn picked<F: Fn(usize) -> Option<usize>>(n: usize, start: Row, pick: F) -> Row
    requires callable { (c : ℕ) → c < n → F.pre pick c }
    requires low { (c t : ℕ) → c < n → F.post pick c (Some t) → t ≤ 128 }
    ensures { Picks (F.post pick) start result n }
{
    let mut m = start;
    for c in 0..n {
        if let Some(t) = pick(c) {
            m[t] = 1;
        }
    }
    m
}

// The classes of the parts of c.
pub fn ends(table: &Table, rep: &Row, c: usize) -> Ends
    requires class_row { ClassRow table.now.count rep.now }
    requires c_lt_n { c < table.now.count }
    ensures { EndsAt (table_in table.now.words) rep.now c result.left result.right }
{
    part_classes(cell_within(&table.words, c), rep, c)
}

// Is c bare?
fn is_bare(table: &Table, rep: &Row, seen: &Row, built: &Row, c: usize) -> bool
    requires class_row { ClassRow table.now.count rep.now }
    requires c_lt_n { c < table.now.count }
    ensures { Decides result (BareAt (table_in table.now.words) rep.now seen.now built.now c) }
{
    if seen[c] != 1 || !kin_at(&table.words, c, c) {
        return false;
    }
    let e = ends(table, rep, c);
    built[e.left] != 1 || built[e.right] != 1
}

// The bare cells.
pub fn bares(table: &Table, rep: &Row, seen: &Row, built: &Row) -> Row
    requires class_row { ClassRow table.now.count rep.now }
    ensures { BareTo (table_in table.now.words) rep.now seen.now built.now result table.now.count }
{
    let n = table.count;
    picked(n, [0; 129], |c| {
        is_bare(table, rep, seen, built, c).then_some(c)
    })
}

// The class of the key of c, if c is a seal that is seen and its key is not built.
fn key_at(table: &Table, rep: &Row, seen: &Row, built: &Row, c: usize) -> Option<usize>
    requires class_row { ClassRow table.now.count rep.now }
    requires c_lt_n { c < table.now.count }
    ensures { KeyTold (table_in table.now.words) rep.now seen.now built.now c result }
{
    if seen[c] != 1 {
        return None;
    }
    match opens(cell_at(&table.words, c)) {
        Opening::Shut | Opening::Open(_, _) => None,
        Opening::Locked(_, x) => {
            let k = class_of(rep, cell(x));
            (built[k] != 1).then_some(k)
        }
    }
}

// Marks the classes of the keys that are not built, of the seals that are seen.
pub fn keys(table: &Table, rep: &Row, seen: &Row, built: &Row, start: Row) -> Row
    requires class_row { ClassRow table.now.count rep.now }
    requires mark_row { MarkRow rep.now start }
    ensures { Keyed (table_in table.now.words) rep.now seen.now built.now start result table.now.count }
{
    let n = table.count;
    picked(n, start, |c| key_at(table, rep, seen, built, c))
}

// Is c a free cell that is seen?
pub fn free_at(words: &Words, seen: &Row, c: usize) -> bool
    requires { c < 128 }
    ensures { Decides result (FreeAt (table_in words.now) seen.now c) }
{
    seen[c] == 1 && is_variable(words, c)
}

// The free cells that are seen.
pub fn free_seen(table: &Table, rep: &Row, seen: &Row) -> Row
    requires mark_row { MarkRow rep.now seen.now }
    ensures { FreeSeen (table_in table.now.words) rep.now seen.now result table.now.count }
{
    let n = table.count;
    picked(n, [0; 129], |c| free_at(&table.words, seen, c).then_some(c))
}

// The class of the cell of an event, if it is to be made and marked in `hold`.
fn due_at(n: usize, rep: &Row, hold: &Row, e: Event) -> Option<usize>
    requires class_row { ClassRow n rep.now }
    requires e_bound { aim (as_event e) ≤ 128 }
    ensures { DueTold rep.now hold.now (as_event e) result }
{
    match e {
        Event::Make(x) => {
            let t = class_of(rep, cell(x));
            (hold[t] == 1).then_some(t)
        }
        Event::Learn(_) => None,
    }
}

// The classes of the cells that are to be made before p, as far as they are marked in `hold`.
pub fn due(n: usize, rep: &Row, hold: &Row, run: &Run, p: usize) -> Row
    requires n_bound { n ≤ 128 }
    requires class_row { ClassRow n rep.now }
    requires run_words { RunWords n run.now p }
    ensures { Due rep.now hold.now run.now result p }
{
    picked(p, [0; 129], |q| due_at(n, rep, hold, event_at(run, q)))
}
