// Reading a sheet into lent memory. The rules are held until every line is known to be good and the memory to be large
// enough, so that a refused call changes nothing and the text is gone through once.
ghost use Rattle.std.specs.Prelude.{[], ◌≡◌, ◌*◌, ◌≤◌, length};
ghost use Rattle.fields.specs.Writes.{write_at};
ghost use Rattle.records.specs.Layout.{rule_size};
ghost use Rattle.records.specs.Rules.{list_bytes};
ghost use Rattle.sheets.specs.Reading.{ReadRows, Reading, line_error, many?, read_as};

use crate::cuts::{cut, halves};
use crate::rows::{Part, read_row};
use arrayvec::ArrayVec;
use records::{RULE_LIMIT, RULE_SIZE, Rule};

const LINE_FEED: u8 = b'\n';

// The most bytes of a sheet.
pub const SHEET_LIMIT: usize = 65536;

#[derive(Clone, Copy, Debug, PartialEq, Eq)]
pub enum SheetError {
    // 21: the sheet is too long.
    Long,
    // 6: there are too many lines.
    Many,
    // 20: the first bad line, from 1, and its first bad part.
    Bad(BadLine),
    // 4: so many bytes are needed.
    Room(u32),
}

// The first bad line, from 1, and its first bad part.
#[derive(Clone, Copy, Debug, PartialEq, Eq)]
pub struct BadLine {
    pub line: u32,
    pub part: Part,
}

impl From<BadLine> for SheetError {
    ghost from_gives = { λ bad error. error ≡ line_error bad };

    fn from(bad: BadLine) -> SheetError {
        SheetError::Bad(bad)
    }
}

// A byte stands after the last line that is allowed.
fn many(text: &[u8]) -> bool
    ensures { result ≡ many? text.now }
{
    let mut rest = text;
    for _ in 0..RULE_LIMIT {
        if rest.is_empty() {
            return false;
        }
        rest = halves(rest, LINE_FEED).1;
    }
    !rest.is_empty()
}

// Reads the lines of a text into rules, and stops at the first that is bad. The vector is lent, and must be empty: one that
// is returned in a Result is copied, and takes the stack of one more list.
fn read_rows(text: &[u8], rules: &mut ArrayVec<Rule, RULE_LIMIT>) -> Result<(), BadLine>
    requires { rules.old.items ≡ [] }
    ensures { ReadRows text.now result rules.new.items }
{
    let mut rest = text;
    for i in 0..RULE_LIMIT {
        if rest.is_empty() {
            break;
        }
        let line = i as u32 + 1;
        let Some((row, others)) = cut(rest, LINE_FEED) else {
            let part = Part::Line;
            return Err(BadLine { line, part });
        };
        rules.push(read_row(row).map_err(|part| BadLine { line, part })?);
        rest = others;
    }
    Ok(())
}

// Writes the bytes of the rules, one behind the other.
fn put_rules(t: &mut [u8], rules: &[Rule])
    requires { rule_size * length rules.now ≤ length t.old }
    ensures { t.new ≡ write_at t.old 0 (list_bytes rules.now) }
{
    for (i, rule) in rules.iter().enumerate() {
        fields::put(t, RULE_SIZE * i, &rule.to_bytes());
    }
}

// Reads a sheet, and answers how many rules it has.
pub fn read(text: &[u8], rules: &mut [u8]) -> Result<u32, SheetError>
    ensures { Reading text.now rules.old (read_as result) rules.new }
{
    if SHEET_LIMIT < text.len() {
        return Err(SheetError::Long);
    }
    if many(text) {
        return Err(SheetError::Many);
    }
    let mut held = ArrayVec::<Rule, RULE_LIMIT>::new();
    read_rows(text, &mut held)?;
    let bytes = RULE_SIZE * held.len();
    if rules.len() < bytes {
        return Err(SheetError::Room(bytes as u32));
    }
    put_rules(rules, held.as_slice());
    Ok(held.len() as u32)
}
