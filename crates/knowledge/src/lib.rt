// What he sees and can build, by classes of cells: two sweeps over the cells, repeated until nothing changes.
// What a row keeps over a table or another row is a clause of each function and no type: it is a fact of two values, of which one is made anew or changed (docs/DECISIONS.md).

#![tactic(auto)]

pub mod heard;

ghost use Rattle.std.specs.Prelude.{◌≡◌, ℕ, ◌+◌, ◌≤◌, ◌<◌};
ghost use Rattle.model.specs.Case.{Part};
ghost use Rattle.model.specs.Stored.{table_in};
ghost use Rattle.theory.specs.Cells.{class_at, On};
ghost use Rattle.theory.specs.Decides.{Decides};
ghost use Rattle.cells.specs.Cells.{as_cell};
ghost use Rattle.knowledge.specs.Knowledge.{ClassRow, MarkRow, Learns, Opened};
ghost use Rattle.knowledge.specs.Sweeps.{left_part, right_part, Given, MadeBy, Gives, Newly, Finds, Rising, Falling, Turned, OwnMarks, missing};

use cells::{Cell, Opening, Parts, Table, cell_within, made_of, opens, parts_of};
use classes::{Row, class_within};

// The marks, 0 or 1, of the cells that are seen and of those that can be built.
#[derive(Clone, Copy, Debug, PartialEq, Eq)]
pub struct Marks {
    pub seen: Row,
    pub built: Row,
}

// The cells that stand for the classes of a cell's parts.
#[derive(Clone, Copy, Debug, PartialEq, Eq)]
pub struct Ends {
    pub left: usize,
    pub right: usize,
}

// Is the cell k built without any part: his own name, or a free cell, which he chooses?
fn is_given(k: Cell) -> bool
    ensures { Decides result (Given (as_cell k)) }
{
    match k {
        Cell::Atom(n) => n == 0,
        Cell::Variable => true,
        Cell::Pair(..) | Cell::Seal(..) | Cell::Apply(..) => false,
    }
}

// A byte as a cell's number.
pub fn cell(x: u8) -> usize
    ensures { result ≡ x }
{
    usize::from(x)
}

// Is the class of x marked?
pub fn has(n: usize, rep: &Row, marks: &Row, x: u8) -> bool
    requires class_row { ClassRow n rep.now }
    requires x_bound { x ≤ 128 }
    ensures { Decides result (On marks.now (class_at rep.now x)) }
{
    marks[class_within(rep, cell(x))] == 1
}

// The cells that stand for the classes of the parts of c, a cell k.
pub fn part_classes(k: Cell, rep: &Row, c: usize) -> Ends
    requires c_bound { left_part (as_cell k) c ≤ 128 }
    requires c_bound_2 { right_part (as_cell k) c ≤ 128 }
    ensures left_value { result.left ≡ class_at rep.now (left_part (as_cell k) c) }
    ensures right_value { result.right ≡ class_at rep.now (right_part (as_cell k) c) }
{
    match parts_of(k) {
        Parts::None => same_end(class_within(rep, c)),
        Parts::One(a) => same_end(class_within(rep, cell(a))),
        Parts::Two(l, r) => Ends {
            left: class_within(rep, cell(l)),
            right: class_within(rep, cell(r)),
        },
    }
}

// Both ends in one cell.
fn same_end(c: usize) -> Ends
    ensures { (result.left ≡ c) × (result.right ≡ c) }
{
    Ends { left: c, right: c }
}

// Is the cell k composed of what is built?
fn is_made(n: usize, k: Cell, rep: &Row, built: &Row) -> bool
    requires class_row { ClassRow n rep.now }
    requires by_index { (d : ℕ) → Part (as_cell k) d → d ≤ 128 }
    ensures { Decides result (MadeBy (as_cell k) rep.now built.now) }
{
    match made_of(k) {
        Parts::None => false,
        Parts::One(a) => has(n, rep, built, a),
        Parts::Two(l, r) => has(n, rep, built, l) && has(n, rep, built, r),
    }
}

// Does the seen cell k give its parts: does it open, or is it composed of what is built?
fn gives(n: usize, k: Cell, rep: &Row, built: &Row) -> bool
    requires class_row { ClassRow n rep.now }
    requires by_index { (d : ℕ) → Part (as_cell k) d → d ≤ 128 }
    ensures { Decides result (Gives (as_cell k) rep.now built.now) }
{
    match opens(k) {
        Opening::Open(..) => true,
        Opening::Locked(_, key) => has(n, rep, built, key),
        Opening::Shut => is_made(n, k, rep, built),
    }
}

// Is c to be marked as built?
fn newly(table: &Table, rep: &Row, seen: &Row, built: &Row, c: usize) -> bool
    requires class_row { ClassRow table.now.count rep.now }
    requires c_lt_n { c < table.now.count }
    ensures { Decides result (Newly (table_in table.now.words) rep.now seen.now built.now c) }
{
    let n = table.count;
    if class_within(rep, c) != c || built[c] == 1 {
        return false;
    }
    if seen[c] == 1 {
        return true;
    }
    let k = cell_within(&table.words, c);
    is_given(k) || is_made(n, k, rep, built)
}

// The classes of the parts of c, where they are newly seen.
fn shows(table: &Table, rep: &Row, seen: &Row, built: &Row, c: usize) -> Option<Ends>
    requires class_row { ClassRow table.now.count rep.now }
    requires c_lt_n { c < table.now.count }
    ensures { Finds (table_in table.now.words) rep.now seen.now built.now c result }
{
    let n = table.count;
    if class_within(rep, c) != c || seen[c] != 1 {
        return None;
    }
    let k = cell_within(&table.words, c);
    if !gives(n, k, rep, built) {
        return None;
    }
    let ends = part_classes(k, rep, c);
    if seen[ends.left] == 1 && seen[ends.right] == 1 {
        return None;
    }
    Some(ends)
}

// Marks upwards what is built, and says whether that added any mark.
fn rise(table: &Table, rep: &Row, seen: &Row, built: &mut Row) -> bool
    requires class_row { ClassRow table.now.count rep.now }
    requires mark_row { MarkRow rep.now built.old }
    ensures { Rising (table_in table.now.words) rep.now seen.now built.old built.new result table.now.count }
{
    let n = table.count;
    let mut changed = false;
    for c in 0..n {
        if newly(table, rep, seen, built, c) {
            built[c] = 1;
            changed = true;
        }
    }
    changed
}

// Marks downwards what is seen, and says whether that added any mark.
fn fall(table: &Table, rep: &Row, seen: &mut Row, built: &Row) -> bool
    requires class_row { ClassRow table.now.count rep.now }
    requires mark_row { MarkRow rep.now seen.old }
    ensures { Falling (table_in table.now.words) rep.now built.now seen.old seen.new result table.now.count 0 }
{
    let n = table.count;
    let mut changed = false;
    for c in (0..n).rev() {
        if let Some(ends) = shows(table, rep, seen, built, c) {
            seen[ends.left] = 1;
            seen[ends.right] = 1;
            changed = true;
        }
    }
    changed
}

// One sweep upwards and one downwards. Says whether they added any mark.
pub fn sweep(table: &Table, rep: &Row, marks: &mut Marks) -> bool
    requires class_row { ClassRow table.now.count rep.now }
    requires mark_row { MarkRow rep.now marks.old.seen }
    requires mark_row_2 { MarkRow rep.now marks.old.built }
    ensures turned { Turned (table_in table.now.words) table.now.count rep.now marks.old.seen marks.old.built marks.new.seen marks.new.built result }
    ensures down { missing marks.new.seen + missing marks.new.built ≤ missing marks.old.seen + missing marks.old.built }
{
    let up = rise(table, rep, &marks.seen, &mut marks.built);
    let down = fall(table, rep, &mut marks.seen, &marks.built);
    up || down
}

// Marks his own name as built, if no cell of the table stands for it.
pub fn own_marks(n: usize, rep: &Row) -> Row
    requires { ClassRow n rep.now }
    ensures { OwnMarks n rep.now result }
{
    let mut m = [0; 129];
    let z = class_within(rep, 128);
    if n <= z {
        m[z] = 1;
    }
    m
}

// Marks the class of a learnt cell as seen.
pub fn learn(n: usize, rep: &Row, mut seen: Row, c: usize) -> Row
    requires class_row { ClassRow n rep.now }
    requires mark_row { MarkRow rep.now seen }
    requires c_bound { c ≤ 128 }
    ensures { Learns rep.now seen c result }
{
    seen[class_within(rep, c)] = 1;
    seen
}

// What he sees and can build, from marks of seen cells.
pub fn open_known(table: &Table, rep: &Row, seen: Row) -> Marks
    requires class_row { ClassRow table.now.count rep.now }
    requires mark_row { MarkRow rep.now seen }
    ensures { Opened (table_in table.now.words) rep.now seen result }
{
    let built = own_marks(table.count, rep);
    let mut marks = Marks { seen, built };
    while sweep(table, rep, &mut marks) {}
    marks
}
