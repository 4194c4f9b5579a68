// The reader of case files: from any bytes to a table and a run by value, or to a refusal.

#![tactic(auto)]

mod case;
mod record;
mod rest;
mod store;
mod table;

ghost use Rattle.std.specs.Prelude.{◌≡◌};
ghost use Rattle.model.specs.Format.{read_file};
ghost use Rattle.model.specs.Stored.{table_in};
ghost use Rattle.casefile.specs.Case.{Reads, VariableFound};

pub use case::Case;
use cells::Table;
use refusals::Refusal;
use table::Cells;

// One word for each of so many cells, or events, then zeros: a row of fixed size, as a table and a run are handed on.
#[derive(Clone, Copy)]
pub struct Row {
    pub words: [u32; 128],
    pub count: usize,
}

// The offset of the first variable of a table: the records of the cells before it have four bytes each.
fn first_variable(table: &Table) -> Option<usize>
    ensures { VariableFound (table_in table.now.words) table.now.count result }
{
    (0..table.count)
        .find(|i| cells::is_variable(&table.words, *i))
        .map(|i| 4 * i)
}

// Reads a case file: any bytes are accepted, or refused by the first record at fault.
pub fn read_case(file: &[u8]) -> Result<Case, Refusal>
    ensures { Reads (read_file file.now) result }
{
    let Cells { table, at } = table::read_cells(file)?;
    let run = rest::read_events(&file[at..], at, &table)?;
    let variable = first_variable(&table);
    Ok(Case {
        table,
        run,
        variable,
    })
}
