// The tests of an interval's width and ends, which every call on intervals makes first (document 01's 1, 2 and 3).
ghost use Rattle.std.specs.Prelude.{◌≡◌};
ghost use Rattle.answers.specs.Refusals as refusal;
ghost use Rattle.intervals.specs.Ends.{Tests, number_of, width_tested};

use answers::Refusal;
use blocks::Interval;

#[derive(Clone, Copy, Debug, PartialEq, Eq)]
pub enum Fault {
    // 1: the width is not 1..16.
    Width,
    // 2: an end does not fit the width.
    Fit,
    // 3: the ends are crossed.
    Order,
}

impl From<Fault> for Refusal {
    ghost from_gives = { λ fault why. refusal.number_of why ≡ number_of fault };

    fn from(fault: Fault) -> Refusal {
        match fault {
            Fault::Width => Refusal::Width,
            Fault::Fit => Refusal::Fit,
            Fault::Order => Refusal::Order,
        }
    }
}

// A width is 1 to 16.
pub fn test_width(n: u32) -> Result<(), Fault>
    ensures { result ≡ width_tested n }
{
    if n < 1 || 16 < n {
        return Err(Fault::Width);
    }
    Ok(())
}

#[tactic(auto, unfolding(crate::specs::Ends::tested))]
pub fn test_ends(n: u32, low: u32, high: u32) -> Result<Interval, Fault>
    ensures { Tests n low high result }
{
    test_width(n)?;
    let size = bits::power(n);
    if size <= low || size <= high {
        return Err(Fault::Fit);
    }
    if high < low {
        return Err(Fault::Order);
    }
    Ok(Interval {
        width: n,
        low,
        high,
    })
}
