// What may be seen and built before a position of the run, if keys that may be equal to a seen cell are granted.
ghost use Rattle.std.specs.Prelude.{◌≡◌, true, ℕ, ◌≤◌, ◌<◌};
ghost use Rattle.model.specs.Stored.{table_in};
ghost use Rattle.theory.specs.Cells.{RunWords};
ghost use Rattle.classes.specs.Kept.{Kept};
ghost use Rattle.knowledge.specs.Knowledge.{MarkRow};
ghost use Rattle.wants.specs.Starts.{BareTo, FreeAt};
ghost use Rattle.granting.specs.Grants.{Rounded, Grants, GrantRows};

use super::leaks::leaked;
use super::meets::grant;
use cells::{Run, Table};
use classes::Row;
use knowledge::{Marks, sweep};
use wants::sets::needed;
use wants::{bares, free_at};

// What is granted: marks of what may be seen and built, the cells that are bare by them, and the costs of the ways down as far as they are known.
// Calm: no free class is seen, so the marks hold until more is learnt. A state: the rows are used whether calm or not.
#[derive(Clone, Copy, Debug, PartialEq, Eq)]
pub struct Grant {
    pub calm: bool,
    pub seen: Row,
    pub built: Row,
    pub bare: Row,
    pub costs: Row,
}

// One round of the rules: the first of them that adds marks. Did any?
#[tactic(auto, using(knowledge::proofs::ClassRows::kept_row))]
fn round(table: &Table, rep: &Row, run: &Run, p: usize, marks: &mut Marks) -> bool
    requires kept { Kept table.now.count (table_in table.now.words) rep.now }
    requires run_words { RunWords table.now.count run.now p }
    requires mark_row { MarkRow rep.now marks.old.seen }
    requires mark_row_2 { MarkRow rep.now marks.old.built }
    ensures { Rounded (table_in table.now.words) table.now.count rep.now run.now p marks.old.seen marks.old.built marks.new.seen marks.new.built result }
{
    if sweep(table, rep, marks) {
        return true;
    }
    let keys = needed(table, rep, &marks.seen, &marks.built, [0; 129]);
    grant(table, rep, &keys, &marks.seen, &mut marks.built)
        || leaked(table, rep, run, p, &mut marks.seen)
}

// What may be seen and built before p, from marks on.
fn closed(table: &Table, rep: &Row, run: &Run, p: usize, o: Marks) -> Marks
    requires kept { Kept table.now.count (table_in table.now.words) rep.now }
    requires run_words { RunWords table.now.count run.now p }
    requires mark_row { MarkRow rep.now o.seen }
    requires mark_row_2 { MarkRow rep.now o.built }
    ensures { Grants (table_in table.now.words) table.now.count rep.now run.now p o.seen o.built result.seen result.built }
{
    let mut m = o;
    while round(table, rep, run, p, &mut m) {}
    m
}

// Is no free class seen?
fn is_calm(table: &Table, seen: &Row) -> bool
    ensures { result ≡ true → (c : ℕ) → c < table.now.count → FreeAt (table_in table.now.words) seen.now c → ⊥ }
{
    let n = table.count;
    (0..n).all(|c| !free_at(&table.words, seen, c))
}

// A guide: the costs before any is known: 254 of what is built, 255 of the rest.
fn start_costs(built: &Row) -> Row {
    built.map(|mark| if mark == 1 { 254 } else { 255 })
}

// What is granted before p, from what was granted before.
#[tactic(auto, using(knowledge::proofs::ClassRows::kept_row))]
pub fn granted(table: &Table, rep: &Row, run: &Run, p: usize, g: Grant) -> Grant
    requires kept { Kept table.now.count (table_in table.now.words) rep.now }
    requires run_words { RunWords table.now.count run.now p }
    requires grant_rows { GrantRows (table_in table.now.words) table.now.count rep.now run.now g }
    ensures rows { GrantRows (table_in table.now.words) table.now.count rep.now run.now result }
    ensures marks { Grants (table_in table.now.words) table.now.count rep.now run.now p g.seen g.built result.seen result.built }
    ensures bare { BareTo (table_in table.now.words) rep.now result.seen result.built result.bare table.now.count }
{
    if g.calm {
        return g;
    }
    let Grant { seen, built, .. } = g;
    let Marks { seen, built } = closed(table, rep, run, p, Marks { seen, built });
    Grant {
        calm: is_calm(table, &seen),
        bare: bares(table, rep, &seen, &built),
        costs: start_costs(&built),
        seen,
        built,
    }
}
