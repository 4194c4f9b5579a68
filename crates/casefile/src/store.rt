// The words of cells or events, one after the other.
ghost use Rattle.std.specs.Prelude.{◌≡◌, ◌<◌};
ghost use Rattle.casefile.specs.Case.{no_words, with_word};

use super::Row;

// No words.
pub fn no_words() -> Row
    ensures { result ≡ no_words }
{
    Row {
        words: [0; 128],
        count: 0,
    }
}

// One word more.
pub fn push(row: &mut Row, word: u32)
    requires { row.old.count < 128 }
    ensures { row.new ≡ with_word row.old word }
{
    row.words[row.count] = word;
    row.count += 1;
}
