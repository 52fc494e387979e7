// An interval of a width whose ends fit and are in order.
ghost use Rattle.std.specs.Prelude.{◌≡◌};
ghost use Rattle.blocks.specs.Blocks.{Closed};

use crate::words::Words;
use crate::{Word, free_bits};

#[derive(Clone, Copy)]
pub struct Interval {
    pub width: u32,
    pub low: u32,
    pub high: u32,
    pub ghost closed: { Closed width low high },
}

impl Interval {
    ghost use Rattle.std.specs.Prelude.{◌+◌, ◌≤◌};
    ghost use Rattle.blocks.specs.Counting.{count_of};
    ghost use Rattle.blocks.specs.Walked.{Behind, First, WordsOf};

    // How many words it has (source document 000, theorem 3.2, with document 01's correction).
    // high + 1 is worked out in 32 bits, where it cannot become 0.
    pub fn count(self) -> u32
        ensures { result ≡ count_of self.width self.low self.high }
    {
        let n = self.width;
        let low = self.low;
        let b = self.high + 1;
        let size = bits::power(n);
        if low == 0 {
            if b == size {
                return 1;
            }
            return u32::count_ones(b);
        }
        let a = low - 1;
        if b == size {
            return n - bits::ones_below(a, n);
        }
        let s = bits::highest_apart(a, b);
        s - bits::ones_below(a, s) + bits::ones_below(b, s)
    }

    // The lowest word, and how many values it matches.
    pub fn first(self) -> (Word, u32)
        ensures { First self.width self.low self.high result }
    {
        let k = free_bits(self.width, self.low, self.high + 1);
        let word = Word {
            value: self.low as u16,
            mask: bits::mask(self.width, k),
        };
        (word, bits::power(k))
    }

    // What is left behind the first so many values.
    pub fn behind(self, size: u32) -> Option<Interval>
        requires { self.low + size ≤ 65536 }
        ensures { Behind self.width self.low self.high size result }
    {
        let low = self.low + size;
        if self.high < low {
            return None;
        }
        Some(Interval {
            width: self.width,
            low,
            high: self.high,
        })
    }

    // Its words, ascending.
    pub fn words(self) -> Words
        ensures { WordsOf self.width self.low self.high result }
    {
        Words { left: Some(self) }
    }
}
