// The choice of what is tried at one step: a position where what is to be made is not built, and the cells that may have to be made equal there.
ghost use Rattle.std.specs.Prelude.{IfSome, ◌≤◌, ◌<◌, ◌+◌};
ghost use Rattle.model.specs.Stored.{table_in, run_in};
ghost use Rattle.theory.specs.Cells.{RunWords};
ghost use Rattle.classes.specs.Kept.{Kept, Solved};
ghost use Rattle.knowledge.specs.Knowledge.{ClassRow, MarkRow};
ghost use Rattle.wants.specs.Starts.{BareTo};
ghost use Rattle.wants.specs.Sets.{WantedRow};
ghost use Rattle.granting.specs.Line.{Whole, Lacking};
ghost use Rattle.solving.specs.Plans.{Better, Reopened, LineChance, StageRows, FirstStage, MadeStage, HeardStage, Stepped, Plans};

use super::pairs::pairing;
use cells::{Event, Run, Table, aim_of, event_at};
use classes::clash::clash;
use classes::{Row, class_of};
use granting::grants::{Grant, granted};
use granting::line::{line, live_row};
use knowledge::{Marks, cell, has, learn, open_known, own_marks};
use wants::bares;
use wants::sets::wanted;

// Wanted and bare cells, of which pairs are to be tried. How many pairs are live is a guide only.
#[derive(Clone, Copy, Debug, PartialEq, Eq)]
pub struct Trial {
    pub pairs: u8,
    pub want: Row,
    pub bare: Row,
}

// The plan of a step: what is tried. The position and the load are guides only.
#[derive(Clone, Copy, Debug, PartialEq, Eq)]
pub struct Choice {
    pub at: usize,
    pub load: usize,
    pub trial: Trial,
}

// What is known before a position: the marks of what is seen and built, what is granted, and the best plan so far; none, if nothing is to be tried.
// Built: the marks found since the last LN; none, if they are still to be found, from those of what is seen. Dead: a guide, how many dead ends the position had.
#[derive(Clone, Copy, Debug, PartialEq, Eq)]
struct Stage {
    pub dead: u16,
    pub seen: Row,
    pub built: Option<Row>,
    pub grant: Grant,
    pub best: Option<Choice>,
}

// A guide: the number of pairs of a wanted cell and a bare one that do not clash at once, up to 254.
fn live(table: &Table, rep: &Row, want: &Row, bare: &Row) -> u8
    requires kept { Kept table.now.count (table_in table.now.words) rep.now }
{
    let n = table.count;
    let mut k = 0;
    for c in 0..n {
        if want[c] == 1 {
            k = live_row(n, k, |d| {
                pairing(&table.words, rep, want, bare, c, d)
                    && !clash(table, rep, c as u8, d as u8, 3)
            });
        }
    }
    k
}

// All cells that may help at the MK at p, and the bare ones, by the marks of what is seen and built.
fn by_all(table: &Table, rep: &Row, o: Marks, run: &Run, p: usize) -> Trial
    requires kept { Kept table.now.count (table_in table.now.words) rep.now }
    requires mark_row { MarkRow rep.now o.seen }
    requires mark_row_2 { MarkRow rep.now o.built }
    requires run_words { RunWords table.now.count run.now (p + 1) }
    ensures want { WantedRow (table_in table.now.words) rep.now o.seen o.built run.now p result.want }
    ensures bare { BareTo (table_in table.now.words) rep.now o.seen o.built result.bare table.now.count }
{
    let want = wanted(table, rep, o, run, p);
    let bare = bares(table, rep, &o.seen, &o.built);
    Trial {
        pairs: live(table, rep, &want, &bare),
        want,
        bare,
    }
}

// A way down from the class t, which is not built by what is granted, with the cells that are bare by it. The costs that were found stay with what is granted.
fn by_line(table: &Table, rep: &Row, g: &mut Grant, t: usize) -> Trial
    requires kept { Kept table.now.count (table_in table.now.words) rep.now }
    requires whole { Whole (table_in table.now.words) rep.now g.old.built }
    requires lacking { Lacking table.now.count rep.now g.old.built t }
    ensures { LineChance (table_in table.now.words) rep.now g.old t result g.new }
{
    let l = line(table, rep, *g, &mut g.costs, t);
    // The borrow checker takes an array into a literal from a variable only, not from a field.
    let want = l.cells;
    let bare = g.bare;
    Trial {
        pairs: l.pairs,
        want,
        bare,
    }
}

// A guide: how much there is to try, by the number of pairs and the number of dead ends that the position had.
fn load_of(pairs: u8, dead: u16) -> usize {
    usize::from(pairs) * 4096 / (usize::from(dead) + 1)
}

// The better of the plan `best`, if there is one, and what is tried at p.
fn better(best: Option<Choice>, trial: Trial, p: usize, dead: u16) -> Choice
    ensures { Better best trial result }
{
    let load = load_of(trial.pairs, dead);
    match best {
        Some(best) if best.load <= load => best,
        _ => Choice { at: p, load, trial },
    }
}

// The marks of what is seen and built: these, if those of what is built are known; else found from those of what is seen.
fn opened(table: &Table, rep: &Row, seen: Row, built: Option<Row>) -> Marks
    requires class_row { ClassRow table.now.count rep.now }
    requires mark_row { MarkRow rep.now seen }
    requires mark_row_2 { IfSome built (MarkRow rep.now) }
    ensures { Reopened (table_in table.now.words) rep.now seen built result }
{
    match built {
        Some(built) => Marks { seen, built },
        None => open_known(table, rep, seen),
    }
}

// Takes the stage past the MK at p. Where what is to be made is not built, a way down is tried if it is not built by what is granted either, with the cells that are bare by that;
// else all that may help.
fn make(table: &Table, rep: &Row, run: &Run, p: usize, st: &mut Stage)
    requires solved { Solved table.now.count (table_in table.now.words) rep.now }
    requires run_words { RunWords table.now.count run.now (p + 1) }
    requires stage_rows { StageRows (table_in table.now.words) table.now.count rep.now run.now st.old }
    ensures rows { StageRows (table_in table.now.words) table.now.count rep.now run.now st.new }
    ensures made { MadeStage (table_in table.now.words) table.now.count rep.now run.now p st.old st.new }
{
    let aim = aim_of(event_at(run, p));
    let o = opened(table, rep, st.seen, st.built);
    st.seen = o.seen;
    st.built = Some(o.built);
    if has(table.count, rep, &o.built, aim) {
        return;
    }
    st.grant = granted(table, rep, run, p, st.grant);
    let t = class_of(rep, cell(aim));
    let trial = if st.grant.built[t] == 1 {
        by_all(table, rep, o, run, p)
    } else {
        by_line(table, rep, &mut st.grant, t)
    };
    st.best = Some(better(st.best, trial, p, st.dead));
}

// Takes the stage past an LN of the cell x.
fn hear(n: usize, rep: &Row, x: u8, st: &mut Stage)
    requires class_row { ClassRow n rep.now }
    requires mark_row { MarkRow rep.now st.old.seen }
    requires mark_row_2 { MarkRow rep.now st.old.grant.seen }
    requires x_lt_n { x < n }
    requires n_bound { n ≤ 128 }
    ensures { HeardStage rep.now x st.old st.new }
{
    st.seen = learn(n, rep, st.seen, cell(x));
    st.built = None;
    st.grant.calm = false;
    st.grant.seen = learn(n, rep, st.grant.seen, cell(x));
}

// Takes the stage past the event at p.
fn step(table: &Table, rep: &Row, run: &Run, p: usize, st: &mut Stage)
    requires solved { Solved table.now.count (table_in table.now.words) rep.now }
    requires run_words { RunWords table.now.count run.now (p + 1) }
    requires stage_rows { StageRows (table_in table.now.words) table.now.count rep.now run.now st.old }
    ensures rows { StageRows (table_in table.now.words) table.now.count rep.now run.now st.new }
    ensures stepped { Stepped (table_in table.now.words) table.now.count rep.now run.now p st.old st.new }
{
    match event_at(run, p) {
        Event::Make(_) => make(table, rep, run, p, st),
        Event::Learn(x) => hear(table.count, rep, x, st),
    }
}

// The stage before the first event: nothing is learnt, the marks of his own name are granted, and nothing is to be tried.
fn first_stage(own: Row) -> Stage
    ensures { FirstStage own result }
{
    let blank = [0; 129];
    Stage {
        dead: 0,
        seen: blank,
        built: None,
        grant: Grant {
            calm: false,
            seen: blank,
            built: own,
            bare: blank,
            costs: [255; 129],
        },
        best: None,
    }
}

// The plan of a step; none, if everything that is to be made is built. Positions with dead ends before are taken sooner; a plan with one pair at most is good enough to look no further.
pub fn plan(table: &Table, rep: &Row, run: &Run, count: usize, dead: &[u16; 128]) -> Option<Choice>
    requires solved { Solved table.now.count (table_in table.now.words) rep.now }
    requires run_words { RunWords table.now.count run.now count }
    ensures { Plans (table_in table.now.words) (run_in count run.now) rep.now result }
{
    let mut st = first_stage(own_marks(table.count, rep));
    for p in 0..count {
        st.dead = dead[p];
        step(table, rep, run, p, &mut st);
        if let Some(best) = &st.best
            && best.trial.pairs <= 1
        {
            return st.best;
        }
    }
    st.best
}
