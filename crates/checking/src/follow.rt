// Following a value list: each variable is put into one class with the cell of its entry.
ghost use Rattle.std.specs.Prelude.{◌≡◌, ◌<◌, length};
ghost use Rattle.model.specs.Case.{VA};
ghost use Rattle.model.specs.Stored.{table_in};
ghost use Rattle.classes.specs.Kept.{Kept};
ghost use Rattle.checking.specs.Follow.{Inside, Binds, Gathers, Follows};

use cells::{Table, is_variable};
use classes::Row;

// The cell c, if it is a variable, in one class with the cell x.
fn bind_entry(table: &Table, rep: Row, c: u8, x: u8) -> Row
    requires kept { Kept table.now.count (table_in table.now.words) rep }
    requires c_lt_n { c < table.now.count }
    requires x_lt_n { table_in table.now.words c ≡ VA → x < table.now.count }
    ensures { Binds table.now.count (table_in table.now.words) rep c x result }
{
    if !is_variable(&table.words, usize::from(c)) {
        return rep;
    }
    classes::join(table, rep, c, x)
}

// The entries of the list as equalities of the classes.
fn gather(table: &Table, list: &[u8]) -> Row
    requires list_len { length list.now ≡ table.now.count }
    requires inside { Inside table.now.count (table_in table.now.words) list.now }
    ensures { Gathers table.now.count (table_in table.now.words) list.now result }
{
    let n = table.count;
    let mut rep = classes::start(table);
    for c in 0..n {
        // Bound first: the borrow checker covers no call whose result is laid at once in the array that it was handed.
        let bound = bind_entry(table, rep, c as u8, list[c]);
        rep = bound;
    }
    rep
}

// The classes of the cells that the list puts together, with all that this asks for; none if following it comes round.
pub fn follow(table: &Table, list: &[u8]) -> Option<Row>
    requires list_len { length list.now ≡ table.now.count }
    requires inside { Inside table.now.count (table_in table.now.words) list.now }
    ensures { Follows table.now.count (table_in table.now.words) list.now result }
{
    let rep = classes::settle(table, gather(table, list))?;
    classes::acyclic(table, rep).then_some(rep)
}
