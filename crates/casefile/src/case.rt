// What the reader replies of an accepted file.
ghost use Rattle.theory.specs.Cells.{RunWords};

use super::Row;
use cells::Table;

// What is read of an accepted file: its table, its run, all of whose events name cells of that table, and the offset of its first VA record, if it has one.
#[derive(Clone, Copy)]
pub struct Case {
    pub table: Table,
    pub run: Row,
    pub variable: Option<usize>,
    pub ghost listed: { RunWords table.count run.words run.count },
}
