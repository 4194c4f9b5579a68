// The question list check: is a value list, from anyone, right for a case file?
// What a row keeps over a table or another row is a clause of each function and no type: it is a fact of two values, of which one is made anew or changed (docs/DECISIONS.md).

#![tactic(auto)]

mod follow;
mod form;
mod made;

ghost use Rattle.std.specs.Prelude.{◌≡◌};
ghost use Rattle.model.specs.Values.{Form, RightList};
ghost use Rattle.model.specs.Stored.{table_in, run_in};
ghost use Rattle.theory.specs.Cells.{RunWords};
ghost use Rattle.theory.specs.Decides.{Decides};
ghost use Rattle.refusals.specs.Refused.{refusal};
ghost use Rattle.checking.specs.Promise.{CheckPromise};
ghost use Rattle.checking.specs.Form.{entry_cell};

use cells::{Run, Table};
use refusals::{Fault, Refusal};

// Is a list in good form right? Its entries are put together as classes of cells; then cells that show one message are one class.
fn is_right(table: &Table, run: &Run, count: usize, list: &[u8]) -> bool
    requires run_words { RunWords table.now.count run.now count }
    requires form { Form (table_in table.now.words) table.now.count list.now }
    ensures { Decides result (RightList (table_in table.now.words) (run_in count run.now) (entry_cell list.now)) }
{
    let owned = Table {
        words: form::put_own(&table.words, list),
        count: table.count,
    };
    let Some(followed) = follow::follow(&owned, list) else {
        return false;
    };
    let rep = classes::upward::raise(&owned, followed);
    made::all_made(&owned, &rep, run, count)
}

// The refusal of a list that is no value list of the file.
fn bad_list(place: usize) -> Refusal
    ensures { result ≡ refusal 10 place }
{
    Refusal {
        fault: Fault::BadList,
        place,
    }
}

// Reads a case file and a value list: right exactly if following the list never comes round and the values are right.
pub fn check(file: &[u8], list: &[u8]) -> Result<bool, Refusal>
    ensures { CheckPromise file.now list.now result }
{
    let case = casefile::read_case(file)?;
    let table = &case.table;
    if list.len() != table.count {
        return Err(bad_list(table.count));
    }
    if let Some(bad) = form::first_bad(table, list) {
        return Err(bad_list(bad));
    }
    Ok(is_right(table, &case.run.words, case.run.count, list))
}
