// Aligned blocks of an interval (document 01, "Intervals and words"): the lowest largest one, all of them as words, and how
// many there are. The theory of blocks and ternary words stands beside it, in specs/ and proofs/, for every width.
#![tactic(auto)]

ghost use Rattle.std.specs.Prelude.{◌≡◌, ◌≤◌};
ghost use Rattle.blocks.specs.Blocks.{Closed};
ghost use Rattle.blocks.specs.Counting.{count_of};
ghost use Rattle.blocks.specs.Lowest.{Free};
ghost use Rattle.blocks.specs.Tests.{formed?, matches?};
ghost use Rattle.blocks.specs.Words.{word_in};

mod intervals;
mod patterns;
mod words;

pub use intervals::Interval;
pub use patterns::Pattern;
pub use words::Words;

// A ternary word: a mask bit of 1 means that the bit counts, 0 is a don't care.
#[derive(Clone, Copy, Debug, PartialEq, Eq)]
pub struct Word {
    pub value: u16,
    pub mask: u16,
}

impl Word {
    // No bit stands at n or above, and no value bit where the mask is 0.
    pub fn formed(self, n: u32) -> bool
        requires { n ≤ 16 }
        ensures { result ≡ formed? n self }
    {
        let size = bits::power(n);
        u32::from(self.value) < size
            && u32::from(self.mask) < size
            && self.value & self.mask == self.value
    }

    // Under the mask, x is the value.
    pub fn matches(self, x: u16) -> bool
        ensures { result ≡ matches? self x }
    {
        x & self.mask == self.value
    }
}

// A word as two numbers, value and mask.
impl From<[u16; 2]> for Word {
    ghost from_gives = { λ pair word. word ≡ word_in pair };

    fn from(pair: [u16; 2]) -> Word {
        let [value, mask] = pair;
        Word { value, mask }
    }
}

// How many free bits the lowest largest block of next .. end - 1 has: the most, n at most, of a block that starts at next,
// is aligned and ends by end. The zeros that next ends in say how many are aligned, and the room that is left how many fit.
pub fn free_bits(n: u32, next: u32, end: u32) -> u32
    requires { (n ≤ 16) × (next ≤ 65536) }
    ensures { Free n next end result }
{
    if end <= next {
        return 0;
    }
    n.min(bits::low_zeros(next)).min(bits::highest(end - next))
}

// How many words low..high has.
pub fn count(n: u32, low: u32, high: u32) -> u32
    requires { Closed n low high }
    ensures { result ≡ count_of n low high }
{
    Interval {
        width: n,
        low,
        high,
    }
    .count()
}
