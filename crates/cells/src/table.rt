// The table of a file: the words of its cells, and how many they are.
ghost use Rattle.theory.specs.Cells.{TableWords};

use super::Words;

// At most 128 cells whose parts are lower cells; all words behind them are zero, so that cells beyond the table's show his own name: a row of fixed size
// says that, and a vector would not.
#[derive(Clone, Copy, Debug, PartialEq, Eq)]
pub struct Table {
    pub words: Words,
    pub count: usize,
    pub ghost formed: { TableWords count words },
}
