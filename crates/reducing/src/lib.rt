// The question reducing: the reduced file of a file without variables. First its plan, then its bytes.
// What a row keeps over a table or another row is a clause of each function and no type: it is a fact of two values, of which one is made anew or changed (docs/DECISIONS.md).

#![tactic(auto)]

mod kept; // the bare cells and all that stands in them
mod height; // heights
mod order; // the new numbers
mod rows; // the cells in the new numbers
mod write; // bytes

ghost use Rattle.std.specs.Prelude.{◌++◌, ◌≡◌, ◌+◌, ◌*◌, ◌≤◌, length, drop};
ghost use Rattle.model.specs.Format.{file_bytes};
ghost use Rattle.model.specs.Stored.{table_in, run_in};
ghost use Rattle.theory.specs.Cells.{RunWords};
ghost use Rattle.reducing.specs.Given.{Given, Solid};
ghost use Rattle.reducing.specs.Plan.{planned, Sized, Plans, PlansRun};
ghost use Rattle.reducing.specs.Promise.{ReducePromise};

use cells::{Run, Table, Words};
use classes::Row;
use refusals::{Fault, Refusal};

// The reduced file before it is written: its table, marks on the cells that it learns, and how many cells and events it has. Rows of fixed size: nothing is allocated.
#[derive(Clone, Copy, Debug, PartialEq, Eq)]
struct Plan {
    pub table: Words,
    pub learnt: [u8; 128],
    pub cells: usize,
    pub events: usize,
}

// The plan of the reduced file of a table without variables, from the classes of its cells and the built marks.
fn make_plan(table: &Table, rep: &Row, built: &Row) -> Plan
    requires { Given table.now.count table.now.words rep.now }
    ensures sized { Sized result }
    ensures reduced { Plans (table_in table.now.words) rep.now built.now result }
{
    let bares = kept::bare(table, rep, built);
    let kept = kept::keep(table, rep, &bares);
    let high = height::heights(table);
    let numbers = order::order(table, rep, &high, &kept);
    rows::lay(&table.words, rep, &numbers, &bares)
}

// The plan of the reduced file of a table without variables and of its events.
fn plan_run(table: &Table, run: &Run, count: usize) -> Plan
    requires solid { Solid table.now.words }
    requires run_words { RunWords table.now.count run.now count }
    ensures sized { Sized result }
    ensures reduced { PlansRun (table_in table.now.words) (run_in count run.now) result }
{
    let k = knowledge::heard::open_heard(table, run, count);
    make_plan(table, &k.rep, &k.built)
}

// How many bytes the reduced file takes.
fn needed(plan: &Plan) -> usize
    requires { Sized plan.now }
    ensures { (result ≡ 4 * plan.now.cells + 3 * plan.now.events + 2) × (result ≡ length (file_bytes (planned plan.now))) }
{
    4 * plan.cells + 3 * plan.events + 2
}

// Writes the reduced file at the front of `out`, which has room for it.
fn write_plan(plan: &Plan, out: &mut [u8])
    requires { Sized plan.now × (length (file_bytes (planned plan.now)) ≤ length out.old) }
    ensures { out.new ≡ file_bytes (planned plan.now) ++ drop (length (file_bytes (planned plan.now))) out.old }
{
    write::write_cells(plan, out);
    write::write_events(plan, out);
}

// Reads a case file without variables and writes its reduced file at the front of `out`: how many bytes it takes.
pub fn reduce(file: &[u8], out: &mut [u8]) -> Result<usize, Refusal>
    ensures { ReducePromise file.now out.old result out.new }
{
    let case = casefile::read_case(file)?;
    if let Some(place) = case.variable {
        return Err(Refusal {
            fault: Fault::Variable,
            place,
        });
    }
    let plan = plan_run(&case.table, &case.run.words, case.run.count);
    let length = needed(&plan);
    if out.len() < length {
        return Err(Refusal {
            fault: Fault::ShortBuffer,
            place: length,
        });
    }
    write_plan(&plan, out);
    Ok(length)
}
