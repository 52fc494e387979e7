// A walk and its step as C has them, in numbers: `ended` is 0 for not ended, `no` 0 for not refused, `given` 1 for a word.
ghost use Rattle.std.specs.Prelude.{◌≡◌};
ghost use Rattle.intervals.specs.Walks.{stepped_as};
ghost use Rattle.tablet.specs.Faces.{face_of, handed_in, handed_out};

use answers::Refusal;
use intervals::Fault;

#[repr(C)]
#[derive(Clone, Copy)]
pub struct Walk {
    pub width: u32,
    pub next: u32,
    pub last: u32,
    pub ended: u32,
}

#[repr(C)]
#[derive(Clone, Copy)]
pub struct Step {
    pub no: u32,
    pub given: u32,
    pub value: u32,
    pub mask: u32,
    pub walk: Walk,
}

impl From<Walk> for intervals::Walk {
    ghost from_gives = { λ walk inner. inner ≡ handed_in walk };

    fn from(walk: Walk) -> intervals::Walk {
        intervals::Walk {
            width: walk.width,
            next: walk.next,
            last: walk.last,
            ended: walk.ended != 0,
        }
    }
}

impl From<intervals::Walk> for Walk {
    ghost from_gives = { λ inner walk. walk ≡ handed_out inner };

    fn from(inner: intervals::Walk) -> Walk {
        Walk {
            width: inner.width,
            next: inner.next,
            last: inner.last,
            ended: u32::from(inner.ended),
        }
    }
}

impl Step {
    // The step of the walk w that has this outcome.
    pub fn of(w: Walk, outcome: Result<Option<intervals::Step>, Fault>) -> Step
        ensures { result ≡ face_of w (stepped_as (handed_in w) outcome) }
    {
        match outcome {
            Ok(Some(step)) => Step {
                no: 0,
                given: 1,
                value: u32::from(step.word.value),
                mask: u32::from(step.word.mask),
                walk: step.walk.into(),
            },
            Ok(None) => Step {
                no: 0,
                given: 0,
                value: 0,
                mask: 0,
                walk: w,
            },
            Err(fault) => Step {
                no: Refusal::from(fault).into(),
                given: 0,
                value: 0,
                mask: 0,
                walk: w,
            },
        }
    }
}
