// Cells that may be equal to one that may be seen.
ghost use Rattle.std.specs.Prelude.{◌≡◌, false, ◌<◌};
ghost use Rattle.model.specs.Stored.{table_in};
ghost use Rattle.theory.specs.Cells.{On};
ghost use Rattle.theory.specs.Decides.{Decides};
ghost use Rattle.classes.specs.Kept.{Kept};
ghost use Rattle.knowledge.specs.Knowledge.{MarkRow};
ghost use Rattle.granting.specs.Meets.{May, Alone, Granting};

use cells::{Table, kin_at};
use classes::clash::clash;
use classes::{Row, class_of, unify};

// Is d one of the row `marks`, of the kind of c and of another class, and is there no clash at once? If not, c may not be equal to such a d.
pub fn near(table: &Table, rep: &Row, marks: &Row, c: usize, d: usize) -> bool
    requires kept { Kept table.now.count (table_in table.now.words) rep.now }
    requires c_lt_n { c < table.now.count }
    requires d_lt_n { d < table.now.count }
    ensures { result ≡ false → On marks.now d → May (table_in table.now.words) rep.now c d → ⊥ }
{
    marks[d] == 1
        && kin_at(&table.words, c, d)
        && class_of(rep, c) != class_of(rep, d)
        && !clash(table, rep, c as u8, d as u8, 3)
}

// May c be equal to d, which is seen? If not, it is not.
pub fn may(table: &Table, rep: &Row, seen: &Row, c: usize, d: usize) -> bool
    requires kept { Kept table.now.count (table_in table.now.words) rep.now }
    requires c_lt_n { c < table.now.count }
    requires d_lt_n { d < table.now.count }
    ensures { result ≡ false → On seen.now d → May (table_in table.now.words) rep.now c d → ⊥ }
{
    near(table, rep, seen, c, d) && unify(table, *rep, c as u8, d as u8).is_some()
}

// May c be equal to a cell that is seen? If not, it is not.
fn meets(table: &Table, rep: &Row, seen: &Row, c: usize) -> bool
    requires kept { Kept table.now.count (table_in table.now.words) rep.now }
    requires c_lt_n { c < table.now.count }
    ensures { result ≡ false → Alone (table_in table.now.words) rep.now seen.now c table.now.count }
{
    let n = table.count;
    kin_at(&table.words, c, c) && (0..n).any(|d| may(table, rep, seen, c, d))
}

// Is c one of the row `keys` that is not built?
fn lacks(keys: &Row, built: &Row, c: usize) -> bool
    requires { c < 128 }
    ensures { Decides result (On keys.now c × (On built.now c → ⊥)) }
{
    keys[c] == 1 && built[c] != 1
}

// Marks as built the cells of the row `keys` that may be equal to a cell that is seen. Was any marked?
pub fn grant(table: &Table, rep: &Row, keys: &Row, seen: &Row, built: &mut Row) -> bool
    requires kept { Kept table.now.count (table_in table.now.words) rep.now }
    requires mark_row { MarkRow rep.now keys.now }
    requires mark_row_2 { MarkRow rep.now built.old }
    ensures { Granting (table_in table.now.words) table.now.count rep.now keys.now seen.now built.old built.new result table.now.count }
{
    let n = table.count;
    let mut changed = false;
    for c in 0..n {
        if lacks(keys, built, c) && meets(table, rep, seen, c) {
            built[c] = 1;
            changed = true;
        }
    }
    changed
}
