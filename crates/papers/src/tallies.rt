// Every interval of a width, counted: how many of them have 1, 2, .. prefix words.
ghost use Rattle.std.specs.Prelude.{◌<◌};

// How many intervals have t words, at t. No interval of 16 bits has more than 30.
#[derive(Clone, Copy)]
pub struct Tally {
    pub having: [u64; 32],
}

// What a tally adds up to: intervals, their words, and the squares of their words.
#[derive(Clone, Copy)]
pub struct Sums {
    pub intervals: u64,
    pub words: u64,
    pub squares: u64,
}

// An interval's number of words. None is refused here: one would count as 0 words, and the figures would show it.
pub fn words(n: u32, low: u32, high: u32) -> usize {
    intervals::count(n, low, high).unwrap_or(0) as usize
}

// The tallies of the widths 1 to 12, each at its width.
pub fn all() -> [Tally; 13] {
    let mut found = [Tally { having: [0; 32] }; 13];
    for (n, tally) in found.iter_mut().enumerate().skip(1) {
        *tally = Tally::of_width(n as u32);
    }
    found
}

impl Tally {
    fn of_width(n: u32) -> Tally {
        let mut having = [0; 32];
        let end = 1u32.checked_shl(n).unwrap_or(0);
        for low in 0..end {
            for high in low..end {
                if let Some(count) = having.get_mut(words(n, low, high)) {
                    *count = u64::saturating_add(*count, 1);
                }
            }
        }
        Tally { having }
    }

    // The most words that an interval has.
    pub fn most(&self) -> usize
        ensures { result < 32 }
    {
        self.having.iter().rposition(|k| *k != 0).unwrap_or(0)
    }

    pub fn sums(&self) -> Sums {
        let mut sums = Sums {
            intervals: 0,
            words: 0,
            squares: 0,
        };
        for (t, k) in self.having.iter().enumerate() {
            let words = k.saturating_mul(t as u64);
            sums.intervals = sums.intervals.saturating_add(*k);
            sums.words = sums.words.saturating_add(words);
            sums.squares = sums.squares.saturating_add(words.saturating_mul(t as u64));
        }
        sums
    }
}
