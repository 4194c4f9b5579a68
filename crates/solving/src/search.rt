// The search: each pair of a step is made equal in turn, and the search goes on from there.
ghost use Rattle.std.specs.Prelude.{◌≤◌, ◌<◌};
ghost use Rattle.model.specs.Case.{WellFormed};
ghost use Rattle.model.specs.Stored.{table_in, run_in};
ghost use Rattle.theory.specs.Cells.{RunWords};
ghost use Rattle.classes.specs.Kept.{Kept, Solved};
ghost use Rattle.classes.specs.Settle.{Unifies};
ghost use Rattle.solving.specs.Pairs.{place, ChildOf};
ghost use Rattle.solving.specs.Searches.{Searched, Solves};

use super::list::value_list;
use super::pairs::next_pair;
use super::plan::plan;
use cells::{Run, Table};
use classes::clash::clash;
use classes::upward::raise;
use classes::{Row, start, unify};
use granting::Place;

// The classes that a pair gives, and the place after it, where the next pairs begin.
#[derive(Clone, Copy, Debug, PartialEq, Eq)]
struct Child {
    pub rep: Row,
    pub after: Place,
}

// The classes with those of x and y in one, closed upwards, if messages of the cells allow it.
fn joined(table: &Table, rep: &Row, x: u8, y: u8) -> Option<Row>
    requires kept { Kept table.now.count (table_in table.now.words) rep.now }
    requires x_lt_n { (x < table.now.count) × (y < table.now.count) }
    ensures { Unifies table.now.count (table_in table.now.words) rep.now x y result }
{
    if clash(table, rep, x, y, 3) {
        return None;
    }
    let out = unify(table, *rep, x, y)?;
    Some(raise(table, out))
}

// The classes of the next pair from the place `from` on that can be made equal.
fn next_child(table: &Table, rep: &Row, want: &Row, bare: &Row, from: Place) -> Option<Child>
    requires kept { Kept table.now.count (table_in table.now.words) rep.now }
    requires d_bound { from.d ≤ 128 }
    ensures { ChildOf (table_in table.now.words) table.now.count rep.now want.now bare.now (place from.c from.d) result }
{
    let mut after = from;
    loop {
        let pair = next_pair(table, rep, want, bare, after)?;
        after = Place {
            c: pair.c,
            d: pair.d + 1,
        };
        if let Some(out) = joined(table, rep, pair.c as u8, pair.d as u8) {
            return Some(Child { rep: out, after });
        }
    }
}

// Counts a dead end at the position `at`: no pair is live there.
fn count_dead(dead: &mut [u16; 128], at: usize, pairs: u8) {
    if pairs == 0 && at < 128 {
        dead[at] = dead[at].saturating_add(1).min(60000);
    }
}

// Classes that right values satisfy, found from the classes rep, or none if no right values satisfy these. How many dead ends the positions had guides the choice of a step.
fn search(table: &Table, run: &Run, count: usize, dead: &mut [u16; 128], rep: Row) -> Option<Row>
    requires run_words { RunWords table.now.count run.now count }
    requires well_formed { WellFormed (table_in table.now.words) (run_in count run.now) }
    requires solved { Solved table.now.count (table_in table.now.words) rep }
    ensures { Searched (table_in table.now.words) table.now.count (run_in count run.now) rep result }
{
    let Some(plan) = plan(table, &rep, run, count, dead) else {
        return Some(rep);
    };
    count_dead(dead, plan.at, plan.trial.pairs);
    let mut from = Place { c: 0, d: 0 };
    loop {
        let child = next_child(table, &rep, &plan.trial.want, &plan.trial.bare, from)?;
        if let Some(found) = search(table, run, count, dead, child.rep) {
            return Some(found);
        }
        from = child.after;
    }
}

// A right value list of the file whose table and run these are, or none if no values are right.
pub fn solve(table: &Table, run: &Run, count: usize) -> Option<[u8; 128]>
    requires run_words { RunWords table.now.count run.now count }
    requires well_formed { WellFormed (table_in table.now.words) (run_in count run.now) }
    ensures { Solves (table_in table.now.words) table.now.count (run_in count run.now) result }
{
    let rep = start(table);
    let mut dead = [0; 128];
    match search(table, run, count, &mut dead, rep) {
        Some(found) => Some(value_list(table, &found)),
        None => None,
    }
}
