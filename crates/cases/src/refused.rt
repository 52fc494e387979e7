// A refusal as a line shows it: its number, and the values that come with it. C's answer would not do: it does not say how many
// values come with a number, and its index of an ill-formed word is cut to 32 bits.
use answers::Refusal;
use intervals::{CheckError, Fault, ListError};
use rules::{FindError, ListFault};
use std::fmt;
use tables::{CompileError, LookError};

// "refused 3", "refused 4 with 6", "refused 7 with 0, 9"
#[derive(Clone, Copy, Debug)]
pub enum Refused {
    Plain(Refusal),
    With(Refusal, usize),
    WithTwo(Refusal, u32, u32),
}

impl fmt::Display for Refused {
    fn fmt<W: fmt::Write>(&self, f: &mut fmt::Formatter<W>) -> fmt::Result {
        match self {
            Refused::Plain(why) => write!(f, "refused {}", u32::from(*why)),
            Refused::With(why, a) => write!(f, "refused {} with {a}", u32::from(*why)),
            Refused::WithTwo(why, a, b) => write!(f, "refused {} with {a}, {b}", u32::from(*why)),
        }
    }
}

impl From<Fault> for Refused {
    fn from(fault: Fault) -> Refused {
        Refused::Plain(fault.into())
    }
}

impl From<ListError> for Refused {
    fn from(error: ListError) -> Refused {
        match error {
            ListError::Ends(fault) => fault.into(),
            ListError::Room(words) => Refused::With(Refusal::Room, words as usize),
        }
    }
}

impl From<CheckError> for Refused {
    fn from(error: CheckError) -> Refused {
        match error {
            CheckError::Ends(fault) => fault.into(),
            CheckError::Stated => Refused::Plain(Refusal::Stated),
            CheckError::Ill(i) => Refused::With(Refusal::Ill, i),
        }
    }
}

impl From<ListFault> for Refused {
    fn from(fault: ListFault) -> Refused {
        match fault {
            ListFault::Odd => Refused::Plain(Refusal::Odd),
            ListFault::Many => Refused::Plain(Refusal::Many),
            ListFault::Bad { rule, field } => Refused::WithTwo(Refusal::Rule, rule, field.into()),
        }
    }
}

impl From<FindError> for Refused {
    fn from(error: FindError) -> Refused {
        match error {
            FindError::Rules(fault) => fault.into(),
            FindError::Header => Refused::Plain(Refusal::Header),
        }
    }
}

impl From<CompileError> for Refused {
    fn from(error: CompileError) -> Refused {
        match error {
            CompileError::Rules(fault) => fault.into(),
            CompileError::Space(words) => Refused::With(Refusal::Space, words as usize),
        }
    }
}

impl From<LookError> for Refused {
    fn from(error: LookError) -> Refused {
        match error {
            LookError::Stated => Refused::Plain(Refusal::Stated),
            LookError::Ill(i) => Refused::With(Refusal::Ill, i as usize),
            LookError::Header => Refused::Plain(Refusal::Header),
        }
    }
}
