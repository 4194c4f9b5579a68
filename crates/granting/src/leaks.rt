// What comes to light where a cell over a free class is equal to one that may be seen.
ghost use Rattle.std.specs.Prelude.{◌≤◌, ◌<◌};
ghost use Rattle.model.specs.Stored.{table_in};
ghost use Rattle.theory.specs.Cells.{RunWords};
ghost use Rattle.theory.specs.Decides.{Decides};
ghost use Rattle.classes.specs.Kept.{Kept};
ghost use Rattle.knowledge.specs.Knowledge.{MarkRow};
ghost use Rattle.wants.specs.Starts.{EndsAt};
ghost use Rattle.granting.specs.Leaks.{Bright, LeakTold, LeakingRow, Leaking, Leaked};

use super::meets::may;
use cells::{Run, Table, kin_at};
use classes::Row;
use knowledge::Ends;
use wants::ends;
use wants::sets::{holds, over};

// Does y come to light, in the place of x?
fn bright(held: &Row, seen: &Row, x: usize, y: usize) -> bool
    requires x_bound { x ≤ 128 }
    requires y_bound { y ≤ 128 }
    ensures { Decides result (Bright held.now seen.now x y) }
{
    held[x] == 1 && seen[y] != 1
}

// The cells c and d, and the classes of the parts of c.
#[derive(Clone, Copy, Debug, PartialEq, Eq)]
struct Against {
    pub c: usize,
    pub ends: Ends,
    pub d: usize,
}

// A part of d that comes to light if c is equal to d.
#[tactic(auto, using(knowledge::proofs::ClassRows::kept_row))]
fn leak_at(table: &Table, rep: &Row, held: &Row, seen: &Row, at: Against) -> Option<usize>
    requires kept { Kept table.now.count (table_in table.now.words) rep.now }
    requires c_lt_n { at.c < table.now.count }
    requires d_lt_n { at.d < table.now.count }
    requires ends_at { EndsAt (table_in table.now.words) rep.now at.c at.ends.left at.ends.right }
    ensures { LeakTold (table_in table.now.words) rep.now held.now seen.now at.c at.d result }
{
    if seen[at.d] != 1 {
        return None;
    }
    let f = ends(table, rep, at.d);
    let x = if bright(held, seen, at.ends.left, f.left) {
        f.left
    } else if bright(held, seen, at.ends.right, f.right) {
        f.right
    } else {
        return None;
    };
    may(table, rep, seen, at.c, at.d).then_some(x)
}

// Marks as seen what comes to light of the cells that may be equal to c. Was any marked?
#[tactic(auto, using(knowledge::proofs::ClassRows::kept_row))]
fn leak_row(table: &Table, rep: &Row, held: &Row, seen: &mut Row, c: usize) -> bool
    requires kept { Kept table.now.count (table_in table.now.words) rep.now }
    requires mark_row { MarkRow rep.now seen.old }
    requires c_lt_n { c < table.now.count }
    ensures { LeakingRow (table_in table.now.words) rep.now held.now c seen.old seen.new result table.now.count }
{
    let n = table.count;
    if !kin_at(&table.words, c, c) {
        return false;
    }
    let ends = ends(table, rep, c);
    let mut changed = false;
    for d in 0..n {
        if let Some(x) = leak_at(table, rep, held, seen, Against { c, ends, d }) {
            seen[x] = 1;
            changed = true;
        }
    }
    changed
}

// The same for the first cell of `over` where something comes to light.
fn leak(table: &Table, rep: &Row, held: &Row, over: &Row, seen: &mut Row) -> bool
    requires kept { Kept table.now.count (table_in table.now.words) rep.now }
    requires mark_row { MarkRow rep.now seen.old }
    ensures { Leaking (table_in table.now.words) table.now.count rep.now held.now over.now seen.old seen.new result }
{
    let n = table.count;
    for c in 0..n {
        if over[c] == 1 && leak_row(table, rep, held, seen, c) {
            return true;
        }
    }
    false
}

// Marks as seen what comes to light before p. Was any marked?
#[tactic(auto, using(knowledge::proofs::ClassRows::kept_row))]
pub fn leaked(table: &Table, rep: &Row, run: &Run, p: usize, seen: &mut Row) -> bool
    requires kept { Kept table.now.count (table_in table.now.words) rep.now }
    requires run_words { RunWords table.now.count run.now p }
    requires mark_row { MarkRow rep.now seen.old }
    ensures { Leaked (table_in table.now.words) table.now.count rep.now run.now p seen.old seen.new result }
{
    let held = holds(table, rep, seen);
    let top = over(table, rep, &held, run, p);
    leak(table, rep, &held, &top, seen)
}
