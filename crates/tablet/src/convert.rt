// From each call's outcome to document 01's number and values.
ghost use Rattle.std.specs.Prelude.{◌≡◌, ◌%◌, ◌^◌};
ghost use Rattle.answers.specs.Answers.{answer_of, one_number};
ghost use Rattle.intervals.specs.Bounds.{ends_as};
ghost use Rattle.intervals.specs.Checks.{check_error_as, verdict_as};
ghost use Rattle.intervals.specs.Ends.{fault_as};
ghost use Rattle.intervals.specs.Lists.{list_error_as};
ghost use Rattle.rules.specs.Faults.{list_fault_as};
ghost use Rattle.rules.specs.Finding.{find_error_as};
ghost use Rattle.sheets.specs.Reading.{sheet_error_as};
ghost use Rattle.tables.specs.Compiling.{compile_error_as};
ghost use Rattle.tables.specs.Looking.{look_error_as};
ghost use Rattle.tablet.specs.Faces.{in32, or_nothing, record_as, rule_as, verdict_in};
ghost use Rattle.answers.specs.declared.Answer.{Answer};

use answers::{Answer, Refusal};
use intervals::{CheckError, Closed, Fault, ListError};
use rules::{FindError, ListFault};
use sheets::SheetError;
use tables::{CompileError, LookError};

// What has a number and values in document 01.
pub trait ToAnswer {
    ghost says: { Self → Answer };

    fn answer(self) -> Answer
        ensures { result ≡ says self };
}

impl<T: ToAnswer, E: ToAnswer> ToAnswer for Result<T, E> {
    ghost says = { answer_of T.says E.says };

    fn answer(self) -> Answer {
        match self {
            Ok(value) => value.answer(),
            Err(error) => error.answer(),
        }
    }
}

// What is found, or nothing.
impl<T: ToAnswer> ToAnswer for Option<T> {
    ghost says = { or_nothing T.says };

    fn answer(self) -> Answer {
        match self {
            Some(found) => found.answer(),
            None => Answer::done(0, 0, 0, 0),
        }
    }
}

// A number of words or of rules.
impl ToAnswer for u32 {
    ghost says = { one_number };

    fn answer(self) -> Answer {
        Answer::done(self, 0, 0, 0)
    }
}

impl ToAnswer for Closed {
    ghost says = { ends_as };

    fn answer(self) -> Answer {
        Answer::done(self.low, self.high, 0, 0)
    }
}

// What a check says: the smallest value on which the words and the interval disagree, if there is one.
#[derive(Clone, Copy)]
pub struct Verdict(pub Option<u32>);

impl ToAnswer for Verdict {
    ghost says = { verdict_in };

    fn answer(self) -> Answer {
        match self.0 {
            None => Answer::done(1, 0, 0, 0),
            Some(x) => Answer::done(0, x, 0, 0),
        }
    }
}

impl ToAnswer for rules::Found {
    ghost says = { rule_as };

    fn answer(self) -> Answer {
        Answer::done(1, self.rule, self.action.into(), 0)
    }
}

impl ToAnswer for tables::Found {
    ghost says = { record_as };

    fn answer(self) -> Answer {
        Answer::done(1, self.index, self.rule, self.action.into())
    }
}

impl ToAnswer for Fault {
    ghost says = { fault_as };

    fn answer(self) -> Answer {
        Answer::refused(self.into(), 0, 0)
    }
}

impl ToAnswer for ListError {
    ghost says = { list_error_as };

    fn answer(self) -> Answer {
        match self {
            ListError::Ends(fault) => fault.answer(),
            ListError::Room(words) => Answer::refused(Refusal::Room, words, 0),
        }
    }
}

// The index of an ill-formed word in 32 bits (`in32`): it is any number, where the list is that long, so a conversion that
// fails would not do.
fn low32(x: usize) -> u32
    ensures { result ≡ x % 2 ^ 32 }
{
    (x % 4294967296) as u32
}

impl ToAnswer for CheckError {
    ghost says = { λ e. in32 (check_error_as e) };

    fn answer(self) -> Answer {
        match self {
            CheckError::Ends(fault) => fault.answer(),
            CheckError::Stated => Answer::refused(Refusal::Stated, 0, 0),
            CheckError::Ill(i) => Answer::refused(Refusal::Ill, low32(i), 0),
        }
    }
}

impl ToAnswer for ListFault {
    ghost says = { list_fault_as };

    fn answer(self) -> Answer {
        match self {
            ListFault::Odd => Answer::refused(Refusal::Odd, 0, 0),
            ListFault::Many => Answer::refused(Refusal::Many, 0, 0),
            ListFault::Bad { rule, field } => Answer::refused(Refusal::Rule, rule, field.into()),
        }
    }
}

impl ToAnswer for FindError {
    ghost says = { find_error_as };

    fn answer(self) -> Answer {
        match self {
            FindError::Rules(fault) => fault.answer(),
            FindError::Header => Answer::refused(Refusal::Header, 0, 0),
        }
    }
}

impl ToAnswer for CompileError {
    ghost says = { compile_error_as };

    fn answer(self) -> Answer {
        match self {
            CompileError::Rules(fault) => fault.answer(),
            CompileError::Space(words) => Answer::refused(Refusal::Space, words, 0),
        }
    }
}

impl ToAnswer for LookError {
    ghost says = { look_error_as };

    fn answer(self) -> Answer {
        match self {
            LookError::Stated => Answer::refused(Refusal::Stated, 0, 0),
            LookError::Ill(i) => Answer::refused(Refusal::Ill, i, 0),
            LookError::Header => Answer::refused(Refusal::Header, 0, 0),
        }
    }
}

impl ToAnswer for SheetError {
    ghost says = { sheet_error_as };

    fn answer(self) -> Answer {
        match self {
            SheetError::Long => Answer::refused(Refusal::Long, 0, 0),
            SheetError::Many => Answer::refused(Refusal::Many, 0, 0),
            SheetError::Bad(bad) => Answer::refused(Refusal::Line, bad.line, bad.part.into()),
            SheetError::Room(bytes) => Answer::refused(Refusal::Room, bytes, 0),
        }
    }
}
