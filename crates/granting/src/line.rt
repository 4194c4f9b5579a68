// Ways down from what is to be made, part by part, through cells that are not built.
ghost use Rattle.std.specs.Prelude.{ℕ, ◌<◌, ◌≤◌};
ghost use Rattle.model.specs.Stored.{table_in};
ghost use Rattle.classes.specs.Kept.{Kept};
ghost use Rattle.granting.specs.Line.{Whole, Lacking, Below, LineRow};

use super::grants::Grant;
use super::meets::near;
use cells::Table;
use classes::Row;
use wants::ends;

// A guide: the number of cells below n that are live, added to `before`, up to 254.
pub fn live_row<F: Fn(usize) -> bool>(n: usize, before: u8, live: F) -> u8
    requires { (d : ℕ) → d < n → F.pre live d }
    ensures more { before ≤ result }
    ensures most { before ≤ 254 → result ≤ 254 }
{
    let mut k = before;
    for d in 0..n {
        if 254 <= k {
            return k;
        }
        if live(d) {
            k += 1;
        }
    }
    k
}

// A cell, and how many levels down from it are still looked at.
#[derive(Clone, Copy, Debug, PartialEq, Eq)]
struct Depth {
    pub cell: usize,
    pub levels: usize,
}

// A guide: how many pairs the best way down from c leaves to try, at most 254. In `costs` it is 255 where it is not known yet.
#[tactic(auto, using(knowledge::proofs::ClassRows::kept_row))]
fn cost(table: &Table, rep: &Row, bare: &Row, costs: &mut Row, at: Depth) -> u8
    requires kept { Kept table.now.count (table_in table.now.words) rep.now }
    requires cell_lt_n { at.cell < table.now.count }
{
    let n = table.count;
    let c = at.cell;
    if costs[c] != 255 {
        return costs[c];
    }
    if at.levels == 0 {
        return 254;
    }
    let levels = at.levels - 1;
    let e = ends(table, rep, c);
    if e.right == c {
        costs[c] = 0;
        return 0;
    }
    let right = Depth {
        cell: e.right,
        levels,
    };
    let left = Depth {
        cell: e.left,
        levels,
    };
    let r = cost(table, rep, bare, costs, right);
    let s = if r == 0 {
        0
    } else {
        r.min(cost(table, rep, bare, costs, left))
    };
    costs[c] = live_row(n, s, |d| near(table, rep, bare, c, d));
    costs[c]
}

// A class of the parts of c that is not built: the one with the better way. For a cell without parts, its own.
#[tactic(auto, using(knowledge::proofs::ClassRows::kept_row))]
fn next(table: &Table, rep: &Row, built: &Row, costs: &Row, c: usize) -> usize
    requires kept { Kept table.now.count (table_in table.now.words) rep.now }
    requires whole { Whole (table_in table.now.words) rep.now built.now }
    requires lacking { Lacking table.now.count rep.now built.now c }
    ensures { Below (table_in table.now.words) table.now.count rep.now built.now c result }
{
    let e = ends(table, rep, c);
    let a = e.left;
    let b = e.right;
    if built[b] == 1 || (built[a] != 1 && costs[a] < costs[b]) {
        a
    } else {
        b
    }
}

// The cells of a way down from c, which is not built.
fn way(table: &Table, rep: &Row, built: &Row, costs: &Row, goal: usize) -> Row
    requires kept { Kept table.now.count (table_in table.now.words) rep.now }
    requires whole { Whole (table_in table.now.words) rep.now built.now }
    requires lacking { Lacking table.now.count rep.now built.now goal }
    ensures { LineRow (table_in table.now.words) rep.now built.now goal result }
{
    let mut m = [0; 129];
    let mut c = goal;
    loop {
        m[c] = 1;
        let x = next(table, rep, built, costs, c);
        if m[x] == 1 {
            return m;
        }
        c = x;
    }
}

// A way down, and how many pairs it leaves to try.
#[derive(Clone, Copy, Debug, PartialEq, Eq)]
pub struct Lined {
    pub pairs: u8,
    pub cells: Row,
}

// The best way down from the class c, which is not built; the costs that are worked out for it are kept.
pub fn line(table: &Table, rep: &Row, g: Grant, costs: &mut Row, c: usize) -> Lined
    requires kept { Kept table.now.count (table_in table.now.words) rep.now }
    requires whole { Whole (table_in table.now.words) rep.now g.built }
    requires lacking { Lacking table.now.count rep.now g.built c }
    ensures { LineRow (table_in table.now.words) rep.now g.built c result.cells }
{
    let n = table.count;
    let from = Depth { cell: c, levels: n };
    Lined {
        pairs: cost(table, rep, &g.bare, costs, from),
        cells: way(table, rep, &g.built, costs, c),
    }
}
