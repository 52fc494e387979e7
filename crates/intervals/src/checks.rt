// Somebody else's ternary words against an interval (document 01, "Checking a list").
ghost use Rattle.std.specs.Prelude.{◌≡◌, ◌^◌, ◌≤◌, ◌<◌};
ghost use Rattle.blocks.specs.Tests.{some?};
ghost use Rattle.intervals.specs.Checks.{agree?, check_refused, checked_as, checking, first_ill, verdict, verdict_as, words_in};

use crate::ends::{Fault, test_ends};
use blocks::{Interval, Word};

#[derive(Clone, Copy, Debug, PartialEq, Eq)]
pub enum CheckError {
    Ends(Fault),
    // 9: the stated count of words exceeds the list.
    Stated,
    // 10: the lowest index of an ill-formed word.
    Ill(usize),
}

impl From<Fault> for CheckError {
    ghost from_gives = { λ fault error. error ≡ check_refused fault };

    fn from(fault: Fault) -> CheckError {
        CheckError::Ends(fault)
    }
}

// The lowest index of an ill-formed word.
fn first_ill(n: u32, words: &[[u16; 2]]) -> Option<usize>
    requires { n ≤ 16 }
    ensures { result ≡ first_ill n 0 (words_in words.now) }
{
    words.iter().position(|pair| !Word::from(*pair).formed(n))
}

// One of the words matches x.
fn some_match(words: &[[u16; 2]], x: u16) -> bool
    ensures { result ≡ some? (words_in words.now) x }
{
    words.iter().any(|pair| Word::from(*pair).matches(x))
}

// The interval and the words agree at x.
fn agrees(interval: Interval, words: &[[u16; 2]], x: u32) -> bool
    requires { x < 65536 }
    ensures { result ≡ agree? interval.low interval.high (words_in words.now) x }
{
    let inside = interval.low <= x && x <= interval.high;
    inside == some_match(words, x as u16)
}

// The smallest value on which the words and the interval disagree.
fn first_difference(interval: Interval, words: &[[u16; 2]]) -> Option<u32>
    ensures { verdict_as result ≡ verdict (2 ^ interval.width) 0 interval.low interval.high (words_in words.now) }
{
    (0..bits::power(interval.width)).find(|x| !agrees(interval, words, *x))
}

// Nothing where the first k words match exactly the interval, else the smallest value on which they disagree. The count stands
// beside the list, as C has it.
#[tactic(auto, using(crate::proofs::Pairs::words_pairs), unfolding(crate::specs::Checks::checking, crate::specs::Checks::judged, crate::specs::Ends::behind, answers::specs::Answers::behind_ill))]
pub fn check(n: u32, low: u32, high: u32, list: &[u16], k: usize) -> Result<Option<u32>, CheckError>
    ensures { checked_as result ≡ checking n low high list.now k }
{
    let interval = test_ends(n, low, high)?;
    let (pairs, _) = list.as_chunks::<2>();
    let words = pairs.get(..k).ok_or(CheckError::Stated)?;
    if let Some(i) = first_ill(n, words) {
        return Err(CheckError::Ill(i));
    }
    Ok(first_difference(interval, words))
}
