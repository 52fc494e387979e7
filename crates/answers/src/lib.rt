// An answer as document 01 gives it ("When the tablet says no"): 0 where the call is done, else the refusal's number, and
// then the values that come with it. What is not used is 0.
#![tactic(auto)]

ghost use Rattle.std.specs.Prelude.{◌≡◌};
ghost use Rattle.answers.specs.Answers.{done, refused};
ghost use Rattle.answers.specs.Refusals.{number_of};

// What a call is refused for, with document 01's number. specs/Refusals.antt says when each is given.
#[derive(Clone, Copy, Debug, PartialEq, Eq)]
pub enum Refusal {
    Width = 1,
    Fit = 2,
    Order = 3,
    Room = 4,
    Odd = 5,
    Many = 6,
    Rule = 7,
    Space = 8,
    Stated = 9,
    Ill = 10,
    Header = 11,
    Line = 20,
    Long = 21,
}

impl From<Refusal> for u32 {
    ghost from_gives = { λ why number. number ≡ number_of why };

    fn from(why: Refusal) -> u32 {
        why as u32
    }
}

// `no` is a number, and 0 stands for no refusal: this struct is what C gets.
#[repr(C)]
#[derive(Clone, Copy)]
pub struct Answer {
    pub no: u32,
    pub a: u32,
    pub b: u32,
    pub c: u32,
    pub d: u32,
}

impl Answer {
    pub fn done(a: u32, b: u32, c: u32, d: u32) -> Answer
        ensures { result ≡ done a b c d }
    {
        Answer { no: 0, a, b, c, d }
    }

    pub fn refused(why: Refusal, a: u32, b: u32) -> Answer
        ensures { result ≡ refused (number_of why) a b }
    {
        Answer {
            no: why.into(),
            a,
            b,
            c: 0,
            d: 0,
        }
    }
}
