// A word as a person reads it.
ghost use Rattle.std.specs.Prelude.{◌≡◌, ◌<◌};
ghost use Rattle.blocks.specs.Symbols.{symbol_of};

use crate::Word;
use std::fmt;

// A word of a width, shown bit by bit, the highest first: 0, 1, or * for a don't care.
#[derive(Clone, Copy, Debug, PartialEq, Eq)]
pub struct Pattern {
    pub width: u32,
    pub word: Word,
}

// What stands for bit i of a word.
fn symbol(word: Word, i: u32) -> char
    requires { i < 16 }
    ensures { result ≡ symbol_of word i }
{
    if word.mask >> i & 1 == 0 {
        '*'
    } else if word.value >> i & 1 == 0 {
        '0'
    } else {
        '1'
    }
}

impl fmt::Display for Pattern {
    fn fmt<W: fmt::Write>(&self, f: &mut fmt::Formatter<W>) -> fmt::Result {
        for i in (0..self.width.min(16)).rev() {
            f.write_char(symbol(self.word, i))?;
        }
        Ok(())
    }
}
