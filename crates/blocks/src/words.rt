// The prefix words of an interval, from the lowest on.
ghost use Rattle.std.specs.Iterator.{YieldsFirst, item_count};
ghost use Rattle.blocks.specs.Walked.{words_left};

use crate::Word;
use crate::intervals::Interval;

// Those of what is left, if anything is.
#[derive(Clone, Copy)]
pub struct Words {
    pub left: Option<Interval>,
}

impl Iterator for Words {
    type Item = Word;

    ghost next_gives = { YieldsFirst words_left };

    ghost remaining = { item_count words_left };

    fn next(&mut self) -> Option<Word> {
        let interval = self.left?;
        let (word, size) = interval.first();
        self.left = interval.behind(size);
        Some(word)
    }
}
