// The layouts of document 01 ("Rule, header and table records"): a header, a rule and a table record, as bytes and as numbers.
// Sizes, offsets and limits are named here and in specs/ and nowhere else.
#![tactic(auto)]

ghost use Rattle.std.specs.Prelude.{◌≡◌, ◌+◌, ◌≤◌, length};
ghost use Rattle.fields.specs.Writes.{write_at};
ghost use Rattle.records.specs.Keys.{key_at, key_bytes};
ghost use Rattle.records.specs.Entries.{entry_bytes};
ghost use Rattle.records.specs.Layout.{key_size, rule_size};
ghost use Rattle.records.specs.Rules.{rule_at, rule_bytes};

mod actions;
mod prefixes;

pub use actions::{Action, UnknownAction};
pub use prefixes::Prefix;

// Bytes of a header, of a word's value and of its mask.
pub const KEY_SIZE: usize = 13;
// Bytes of a rule.
pub const RULE_SIZE: usize = 21;
// The most rules of a list.
pub const RULE_LIMIT: usize = 256;
// Bytes of the longest list.
pub const LIST_BYTES: usize = RULE_SIZE * RULE_LIMIT;
// Bytes of a table record: value, mask, rule number, action.
pub const RECORD_SIZE: usize = 28;
// The most words of a table.
pub const WORD_LIMIT: usize = 2048;
// Bytes of the largest table.
pub const TABLE_BYTES: usize = RECORD_SIZE * WORD_LIMIT;
// Where a record's mask, rule number and action stand.
pub const MASK_AT: usize = KEY_SIZE;

pub const NUMBER_AT: usize = 2 * KEY_SIZE;

pub const ACTION_AT: usize = NUMBER_AT + 1;

// What a header, a value or a mask holds.
#[derive(Clone, Copy, Debug, PartialEq, Eq)]
pub struct Key {
    pub proto: u8,
    pub src: u32,
    pub dst: u32,
    pub sport: u16,
    pub dport: u16,
}

impl Key {
    pub fn from_bytes(s: &[u8; KEY_SIZE]) -> Key
        ensures { result ≡ key_at s.now }
    {
        Key {
            proto: s[0],
            src: u32::from_be_bytes([s[1], s[2], s[3], s[4]]),
            dst: u32::from_be_bytes([s[5], s[6], s[7], s[8]]),
            sport: u16::from_be_bytes([s[9], s[10]]),
            dport: u16::from_be_bytes([s[11], s[12]]),
        }
    }

    pub fn to_bytes(self) -> [u8; KEY_SIZE]
        ensures { result ≡ key_bytes self }
    {
        let [s0, s1, s2, s3] = self.src.to_be_bytes();
        let [d0, d1, d2, d3] = self.dst.to_be_bytes();
        let [sp0, sp1] = self.sport.to_be_bytes();
        let [dp0, dp1] = self.dport.to_be_bytes();
        [
            self.proto, s0, s1, s2, s3, d0, d1, d2, d3, sp0, sp1, dp0, dp1,
        ]
    }
}

// A rule's 21 bytes as numbers. Nothing is tested yet: a bad rule has its bad fields here, and `bad_field`, which finds them,
// speaks of any rule. So the flag, the protocol under it and the action are bytes.
#[derive(Clone, Copy, Debug, Default, PartialEq, Eq)]
pub struct Rule {
    pub flag: u8,
    pub proto: u8,
    pub src: u32,
    pub slen: u8,
    pub dst: u32,
    pub dlen: u8,
    pub slow: u16,
    pub shigh: u16,
    pub dlow: u16,
    pub dhigh: u16,
    pub action: u8,
}

impl Rule {
    pub fn from_bytes(s: &[u8; RULE_SIZE]) -> Rule
        ensures { result ≡ rule_at s.now }
    {
        Rule {
            flag: s[0],
            proto: s[1],
            src: u32::from_be_bytes([s[2], s[3], s[4], s[5]]),
            slen: s[6],
            dst: u32::from_be_bytes([s[7], s[8], s[9], s[10]]),
            dlen: s[11],
            slow: u16::from_be_bytes([s[12], s[13]]),
            shigh: u16::from_be_bytes([s[14], s[15]]),
            dlow: u16::from_be_bytes([s[16], s[17]]),
            dhigh: u16::from_be_bytes([s[18], s[19]]),
            action: s[20],
        }
    }

    // The source prefix of a rule whose length is in range.
    pub fn source(self) -> Prefix
        requires { self.slen ≤ 32 }
        ensures { (result.address ≡ self.src) × (result.len ≡ self.slen) }
    {
        Prefix {
            address: self.src,
            len: self.slen,
        }
    }

    // The destination prefix of a rule whose length is in range.
    pub fn dest(self) -> Prefix
        requires { self.dlen ≤ 32 }
        ensures { (result.address ≡ self.dst) × (result.len ≡ self.dlen) }
    {
        Prefix {
            address: self.dst,
            len: self.dlen,
        }
    }

    pub fn to_bytes(self) -> [u8; RULE_SIZE]
        ensures { result ≡ rule_bytes self }
    {
        let [s0, s1, s2, s3] = self.src.to_be_bytes();
        let [d0, d1, d2, d3] = self.dst.to_be_bytes();
        let [sl0, sl1] = self.slow.to_be_bytes();
        let [sh0, sh1] = self.shigh.to_be_bytes();
        let [dl0, dl1] = self.dlow.to_be_bytes();
        let [dh0, dh1] = self.dhigh.to_be_bytes();
        [
            self.flag,
            self.proto,
            s0,
            s1,
            s2,
            s3,
            self.slen,
            d0,
            d1,
            d2,
            d3,
            self.dlen,
            sl0,
            sl1,
            sh0,
            sh1,
            dl0,
            dl1,
            dh0,
            dh1,
            self.action,
        ]
    }
}

// The rule at the start of s.
#[tactic(auto, using(crate::proofs::Chunks::rule_at_take))]
pub fn read_rule(s: &[u8]) -> Rule
    requires { rule_size ≤ length s.now }
    ensures { result ≡ rule_at s.now }
{
    Rule::from_bytes(s.first_chunk::<RULE_SIZE>().unwrap())
}

// Writes a rule.
pub fn put_rule(t: &mut [u8], at: usize, r: Rule)
    requires { at + rule_size ≤ length t.old }
    ensures { t.new ≡ write_at t.old at (rule_bytes r) }
{
    fields::put(t, at, &r.to_bytes());
}

// The header at the start of s.
#[tactic(auto, using(crate::proofs::Chunks::key_at_take))]
pub fn read_key(s: &[u8]) -> Key
    requires { key_size ≤ length s.now }
    ensures { result ≡ key_at s.now }
{
    Key::from_bytes(s.first_chunk::<KEY_SIZE>().unwrap())
}

// Writes a key laid out as a header.
pub fn put_key(t: &mut [u8], at: usize, k: Key)
    requires { at + key_size ≤ length t.old }
    ensures { t.new ≡ write_at t.old at (key_bytes k) }
{
    fields::put(t, at, &k.to_bytes());
}

// A table record: a word of all five fields, the number of the rule that it belongs to, and that rule's action, which is a byte
// as in the rule: `put_rule` of entries writes it as it is.
#[derive(Clone, Copy, Debug, PartialEq, Eq)]
pub struct Entry {
    pub value: Key,
    pub mask: Key,
    pub rule: u8,
    pub action: u8,
}

impl Entry {
    pub fn to_bytes(self) -> [u8; RECORD_SIZE]
        ensures { result ≡ entry_bytes self }
    {
        let mut bytes = [0; RECORD_SIZE];
        fields::put(&mut bytes, 0, &self.value.to_bytes());
        fields::put(&mut bytes, MASK_AT, &self.mask.to_bytes());
        fields::put(&mut bytes, NUMBER_AT, &[self.rule]);
        fields::put(&mut bytes, ACTION_AT, &[self.action]);
        bytes
    }
}
