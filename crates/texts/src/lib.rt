// Numbers, bytes and table records as text.
#![tactic(auto)]

ghost use Rattle.std.specs.Prelude.{[], ◌∷◌, ◌++◌, ◌≡◌, ◌*◌, ◌+◌, ◌<◌, ◌≤◌, length};
ghost use Rattle.arrayvec.specs.ArrayVec.{array_vec_len};
ghost use Rattle.records.specs.Layout.{record_size};
ghost use Rattle.texts.specs.Decimal.{decimal};
ghost use Rattle.texts.specs.Hex.{hex_digit, hex_of};
ghost use Rattle.texts.specs.Lines.{Puts, action_text, line_feed, line_size, tab, word_line};

use arrayvec::ArrayVec;
use records::{ACTION_AT, KEY_SIZE, MASK_AT, NUMBER_AT, RECORD_SIZE};

// No record's line is longer.
pub const LINE_SIZE: usize = 80;

// A line of text, as far as it is written.
pub type Line = ArrayVec<u8, LINE_SIZE>;

// Adds x in decimal, and a tab. That x is below 100,000 is asked here, of `put_decimal`, of `word_line` and of `put_word`, whose
// promise may not change. The room in the line is asked by each that adds to it, another at each, so a type would say it no shorter.
#[tactic(auto, using(std::proofs::lemmas::Grind::common_steps, crate::proofs::Digits::decimal_few, crate::proofs::Digits::decimal_same))]
fn push_number(line: &mut Line, x: u32)
    requires room { array_vec_len line.old + 6 ≤ line_size }
    requires few { x < 100000 }
    ensures text { line.new.items ≡ line.old.items ++ (decimal x ++ (tab ∷ [])) }
    ensures short { array_vec_len line.new ≤ array_vec_len line.old + 6 }
{
    let mut digits = itoa::Buffer::new();
    line.try_extend_from_slice(digits.format(x).as_bytes())
        .unwrap();
    line.push(b'\t');
}

fn hex_digit(d: u8) -> u8
    requires { d < 16 }
    ensures { result ≡ hex_digit d }
{
    b"0123456789ABCDEF"[usize::from(d)]
}

// Adds the bytes of s as two hex digits each, and a tab. (The library's hex that allocates nothing is of lower case only.)
#[tactic(auto, unfolding(crate::specs::Hex::hex_of))]
fn push_hex(line: &mut Line, s: &[u8])
    requires { array_vec_len line.old + (2 * length s.now + 1) ≤ line_size }
    ensures text { line.new.items ≡ line.old.items ++ (hex_of s.now ++ (tab ∷ [])) }
    ensures len { array_vec_len line.new ≡ array_vec_len line.old + (2 * length s.now + 1) }
{
    for byte in s {
        line.push(hex_digit(byte / 16));
        line.push(hex_digit(byte % 16));
    }
    line.push(b'\t');
}

// Adds the word for an action, and ends the line. The byte is a record's own, so it may be none of the four; the last word
// stands for it (`word_line` says so of any record).
fn push_action(line: &mut Line, action: u8)
    requires { array_vec_len line.old + 11 ≤ line_size }
    ensures { line.new.items ≡ line.old.items ++ (action_text action ++ (line_feed ∷ [])) }
{
    let text: &[u8] = match action {
        0 => b"permit",
        1 => b"deny",
        2 => b"permit-log",
        _ => b"deny-log",
    };
    line.try_extend_from_slice(text).unwrap();
    line.push(b'\n');
}

// Writes x in decimal at `at`; the place after it. A place beside the buffer here and below, since what they promise may not change.
#[tactic(auto, using(crate::proofs::Digits::decimal_few, crate::proofs::Digits::decimal_same))]
pub fn put_decimal(t: &mut [u8], at: usize, x: u32) -> usize
    requires room { at + 5 ≤ length t.old }
    requires few { x < 100000 }
    ensures { Puts t.old at (decimal x) result t.new }
{
    let mut digits = itoa::Buffer::new();
    let text = digits.format(x).as_bytes();
    fields::put(t, at, text);
    at + text.len()
}

// Writes the bytes of s as two hex digits each; the place after them.
pub fn put_hex(t: &mut [u8], at: usize, s: &[u8]) -> usize
    requires { at + 2 * length s.now ≤ length t.old }
    ensures { Puts t.old at (hex_of s.now) result t.new }
{
    for (i, byte) in s.iter().enumerate() {
        fields::put(t, at + 2 * i, &[hex_digit(byte / 16), hex_digit(byte % 16)]);
    }
    at + 2 * s.len()
}

// The line of a record, which has this index.
pub fn word_line(index: u32, bytes: &[u8; RECORD_SIZE]) -> Line
    requires { index < 100000 }
    ensures { result.items ≡ word_line index bytes.now }
{
    let mut line = Line::new();
    push_number(&mut line, index);
    push_number(&mut line, u32::from(bytes[NUMBER_AT]));
    push_hex(&mut line, &bytes[..KEY_SIZE]);
    push_hex(&mut line, &bytes[MASK_AT..NUMBER_AT]);
    push_action(&mut line, bytes[ACTION_AT]);
    line
}

// Writes the line of the record at the start of s, which has this index; the place after it. A place beside the buffer, since
// its promise may not change.
#[tactic(auto, using(crate::proofs::FromRecord::line_take))]
pub fn put_word(t: &mut [u8], at: usize, index: u32, s: &[u8]) -> usize
    requires room { at + line_size ≤ length t.old }
    requires few { index < 100000 }
    requires held { record_size ≤ length s.now }
    ensures { Puts t.old at (word_line index s.now) result t.new }
{
    let bytes = s.first_chunk::<RECORD_SIZE>().unwrap();
    let line = word_line(index, bytes);
    fields::put(t, at, line.as_slice());
    at + line.len()
}
