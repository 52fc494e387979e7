// An interval's prefix words one by one (document 01, "One by one"). The state is handed in and the next state handed back.
ghost use Rattle.std.specs.Prelude.{◌≡◌};
ghost use Rattle.intervals.specs.Walks.{stepped_as, stepping, walk_behind};

use crate::ends::{Fault, test_ends};
use blocks::{Interval, Word};

// What stands in it is anything, until a step tests it. Once ended, it stays so, whatever its numbers are: they come back as
// they were (`stepping`), so the flag stands beside them, as it does in C.
#[derive(Clone, Copy, Debug, PartialEq, Eq)]
pub struct Walk {
    pub width: u32,
    pub next: u32,
    pub last: u32,
    pub ended: bool,
}

// A word, and the walk after it.
#[derive(Clone, Copy, Debug, PartialEq, Eq)]
pub struct Step {
    pub word: Word,
    pub walk: Walk,
}

impl Walk {
    // The walk of which this is left.
    fn behind(self, left: Option<Interval>) -> Walk
        ensures { result ≡ walk_behind self left }
    {
        match left {
            Some(interval) => Walk {
                next: interval.low,
                ..self
            },
            None => Walk {
                ended: true,
                ..self
            },
        }
    }

    // The next word with the walk after it, or nothing where the walk has ended.
    #[tactic(auto, unfolding(crate::specs::Walks::stepping, crate::specs::Walks::stepped_from))]
    pub fn step(self) -> Result<Option<Step>, Fault>
        ensures { stepped_as self result ≡ stepping self }
    {
        if self.ended {
            return Ok(None);
        }
        let interval = test_ends(self.width, self.next, self.last)?;
        let (word, size) = interval.first();
        let walk = self.behind(interval.behind(size));
        Ok(Some(Step { word, walk }))
    }
}
