// Counting and listing an interval's prefix words (document 01, "Count" and "Intervals and words").
ghost use Rattle.std.specs.Prelude.{◌≡◌, ◌*◌, ◌≤◌, length};
ghost use Rattle.blocks.specs.Blocks.{words_of};
ghost use Rattle.fields.specs.Writes.{write_at};
ghost use Rattle.intervals.specs.Lists.{Listing, counted_as, counting, ends_refused, listed_as, numbers_of};

use crate::ends::{Fault, test_ends};
use blocks::Interval;

#[tactic(auto, unfolding(crate::specs::Lists::counting, crate::specs::Ends::behind))]
pub fn count(n: u32, low: u32, high: u32) -> Result<u32, Fault>
    ensures { counted_as result ≡ counting n low high }
{
    let interval = test_ends(n, low, high)?;
    Ok(interval.count())
}

#[derive(Clone, Copy, Debug, PartialEq, Eq)]
pub enum ListError {
    Ends(Fault),
    // 4: fewer than twice as many numbers of room as this many words take.
    Room(u32),
}

impl From<Fault> for ListError {
    ghost from_gives = { λ fault error. error ≡ ends_refused fault };

    fn from(fault: Fault) -> ListError {
        ListError::Ends(fault)
    }
}

// Writes an interval's words to a list that has room for them.
fn fill(interval: Interval, out: &mut [u16])
    requires { 2 * length (words_of interval.width interval.low interval.high) ≤ length out.old }
    ensures { out.new ≡ write_at out.old 0 (numbers_of interval.width interval.low interval.high) }
{
    for (i, word) in interval.words().enumerate() {
        out[2 * i] = word.value;
        out[2 * i + 1] = word.mask;
    }
}

// Lists the words where there is room, and answers how many they are.
#[tactic(auto, using(blocks::proofs::Walking::words_counted), unfolding(crate::specs::Lists::listing, crate::specs::Ends::behind, answers::specs::Lent::left_by))]
pub fn list(n: u32, low: u32, high: u32, out: &mut [u16]) -> Result<u32, ListError>
    ensures { Listing n low high out.old (listed_as result) out.new }
{
    let interval = test_ends(n, low, high)?;
    let k = interval.count();
    if out.len() < 2 * (k as usize) {
        return Err(ListError::Room(k));
    }
    fill(interval, out);
    Ok(k)
}
