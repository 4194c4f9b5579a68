// The bare cells, and the cells that stand in them. A cell that stands for its class speaks for it.
ghost use Rattle.std.specs.Prelude.{◌≡◌, ℕ, ◌<◌, ◌≤◌, set};
ghost use Rattle.model.specs.Case.{AT};
ghost use Rattle.model.specs.Stored.{table_in};
ghost use Rattle.theory.specs.Cells.{class_at, On};
ghost use Rattle.theory.specs.Decides.{Decides};
ghost use Rattle.cells.specs.Cells.{as_cell};
ghost use Rattle.knowledge.specs.Knowledge.{ClassRow};
ghost use Rattle.reducing.specs.Bare.{Idle, BuiltClass, IsBare, Bares, Keeps, Adds};
ghost use Rattle.reducing.specs.Given.{LowParts, LowClasses, Given};

use cells::{Cell, Parts, Table, cell_at, made_of, parts_of};
use classes::{Row, class_of};
use knowledge::{cell, has};

// Is the cell k name 0, his own?
fn is_own(k: Cell) -> bool
    ensures { Decides result (as_cell k ≡ AT 0) }
{
    matches!(k, Cell::Atom(0))
}

// Is the cell k name 0, or composed of built parts?
fn is_idle(n: usize, k: Cell, rep: &Row, built: &Row) -> bool
    requires { ClassRow n rep.now × LowParts (as_cell k) }
    ensures { Decides result (Idle (BuiltClass rep.now built.now) (as_cell k)) }
{
    match made_of(k) {
        Parts::None => is_own(k),
        Parts::One(a) => has(n, rep, built, a),
        Parts::Two(a, b) => has(n, rep, built, b) && has(n, rep, built, a),
    }
}

// Does the cell k at the number c stand for its class, and is it bare and not name 0?
fn is_bare(c: usize, n: usize, k: Cell, rep: &Row, built: &Row) -> bool
    requires { ClassRow n rep.now × LowParts (as_cell k) × (c < 128) }
    ensures { Decides result (IsBare rep.now built.now c (as_cell k)) }
{
    let z = class_of(rep, c);
    z == c && built[z] == 1 && !is_idle(n, k, rep, built)
}

// The marks on the bare cells except name 0, one of each class.
pub fn bare(table: &Table, rep: &Row, built: &Row) -> Row
    requires { Given table.now.count table.now.words rep.now }
    ensures { Bares (table_in table.now.words) rep.now built.now table.now.count result }
{
    let n = table.count;
    let mut marks: Row = [0; 129];
    for c in 0..n {
        if is_bare(c, n, cell_at(&table.words, c), rep, built) {
            marks[c] = 1;
        }
    }
    marks
}

// Marks the class of the cell d.
fn mark_class(marks: &mut Row, rep: &Row, d: u8)
    requires { LowClasses rep.now × (d ≤ 128) }
    ensures { marks.new ≡ set marks.old (class_at rep.now d) 1 }
{
    marks[class_of(rep, cell(d))] = 1;
}

// Marks the classes of a cell's parts.
fn mark_parts(marks: &mut Row, k: Cell, rep: &Row)
    requires { LowClasses rep.now × LowParts (as_cell k) }
    ensures { Adds rep.now marks.old (as_cell k) marks.new }
{
    match parts_of(k) {
        Parts::None => {}
        Parts::One(a) => mark_class(marks, rep, a),
        Parts::Two(a, b) => {
            mark_class(marks, rep, b);
            mark_class(marks, rep, a);
        }
    }
}

// The marks on the bare cells and on all that stands in them, from the last cell down.
pub fn keep(table: &Table, rep: &Row, bare: &Row) -> Row
    requires { Given table.now.count table.now.words rep.now × ((c : ℕ) → On bare.now c → c < table.now.count) }
    ensures { Keeps (table_in table.now.words) rep.now bare.now table.now.count result }
{
    let n = table.count;
    let mut marks = *bare;
    for c in (0..n).rev() {
        if marks[c] == 1 {
            mark_parts(&mut marks, cell_at(&table.words, c), rep);
        }
    }
    marks
}
