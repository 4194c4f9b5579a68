// The rows of the reduced file: the words of its cells, and its marks.
ghost use Rattle.std.specs.Prelude.{◌≡◌, ℕ, ◌<◌, ◌≤◌, get_or};
ghost use Rattle.model.specs.Stored.{table_in};
ghost use Rattle.reducing.specs.Given.{LowParts, LowClasses};
ghost use Rattle.reducing.specs.Plan.{empty_plan, put_row, Laid};

use super::Plan;
use super::order::{Numbers, renumbered};
use cells::{Words, cell_at, word_of};
use classes::Row;

// The plan without cells.
fn empty_plan() -> Plan
    ensures { result ≡ empty_plan }
{
    Plan {
        table: [0; 128],
        learnt: [0; 128],
        cells: 0,
        events: 0,
    }
}

// One more cell in the plan, learnt if b is a mark.
fn put_row(plan: &mut Plan, word: u32, b: u8)
    requires { (plan.old.cells < 128) × (plan.old.events ≤ plan.old.cells) }
    ensures { plan.new ≡ put_row plan.old word b }
{
    plan.table[plan.cells] = word;
    plan.learnt[plan.cells] = b;
    plan.cells += 1;
    plan.events += usize::from(b == 1);
}

// The numbered cells, in the new numbers.
pub fn lay(words: &Words, rep: &Row, numbers: &Numbers, bare: &Row) -> Plan
    requires low_classes { LowClasses rep.now × ((c : ℕ) → LowParts (table_in words.now c)) }
    requires count_bound { (numbers.now.count ≤ 128) × ((j : ℕ) → j < numbers.now.count → get_or numbers.now.old j 0 < 128) }
    ensures { Laid words.now rep.now numbers.now.old numbers.now.new bare.now numbers.now.count result }
{
    let mut plan = empty_plan();
    for i in 0..numbers.count {
        let c = usize::from(numbers.old[i]);
        let k = renumbered(cell_at(words, c), rep, &numbers.new);
        put_row(&mut plan, word_of(k), bare[c]);
    }
    plan
}
