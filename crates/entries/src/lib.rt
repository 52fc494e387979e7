// One rule's records: its protocol word with every source port word with every destination port word, in that nesting;
// how many they are, and writing them.
#![tactic(auto)]

ghost use Rattle.std.specs.Prelude.{◌≡◌, ◌*◌, ◌≤◌, length};
ghost use Rattle.blocks.specs.Walked.{Is};
ghost use Rattle.blocks.specs.Words.{word};
ghost use Rattle.records.specs.Layout.{record_size};
ghost use Rattle.entries.specs.Words.{Good, WordCount, entry_with, ported_entry, proto_word, rule_entries};
ghost use Rattle.entries.specs.Written.{Wrote};

use blocks::{Interval, Word};
use records::{Entry, Key, RECORD_SIZE, Rule};

// The ports from low to high.
fn ports(low: u16, high: u16) -> Interval
    requires { low ≤ high }
    ensures { Is 16 low high result }
{
    Interval {
        width: 16,
        low: u32::from(low),
        high: u32::from(high),
    }
}

// The value and the mask of the protocol's word: any protocol, or the rule's own.
#[tactic(auto, unfolding(crate::specs::Words::proto_word))]
fn protocol(r: Rule) -> (u8, u8)
    ensures { (result.0 ≡ (proto_word r).value) × (result.1 ≡ (proto_word r).mask) }
{
    if r.flag == 1 { (0, 0) } else { (r.proto, 255) }
}

// A rule's record, as far as all of its records are alike: the ports are still open.
fn unported(r: Rule, number: u8) -> Entry
    requires { (r.slen ≤ 32) × (r.dlen ≤ 32) }
    ensures { result ≡ entry_with r number (proto_word r) (word 0 0) (word 0 0) }
{
    let (value, mask) = protocol(r);
    Entry {
        value: Key {
            proto: value,
            src: r.src,
            dst: r.dst,
            sport: 0,
            dport: 0,
        },
        mask: Key {
            proto: mask,
            src: r.source().mask(),
            dst: r.dest().mask(),
            sport: 0,
            dport: 0,
        },
        rule: number,
        action: r.action,
    }
}

// The same record for a source port word and a destination port word.
fn ported(entry: Entry, source: Word, dest: Word) -> Entry
    ensures { result ≡ ported_entry entry source dest }
{
    Entry {
        value: Key {
            sport: source.value,
            dport: dest.value,
            ..entry.value
        },
        mask: Key {
            sport: source.mask,
            dport: dest.mask,
            ..entry.mask
        },
        ..entry
    }
}

// Writes a rule's records at the start of what is lent, and hands back how many bytes they take (`Wrote`, so it counts them).
pub fn put_rule(t: &mut [u8], r: Rule, number: u8) -> usize
    requires good { Good r }
    requires room { record_size * length (rule_entries number r) ≤ length t.old }
    ensures { Wrote t.old t.new 0 (rule_entries number r) result }
{
    let entry = unported(r, number);
    let mut free = 0;
    for source in ports(r.slow, r.shigh).words() {
        for dest in ports(r.dlow, r.dhigh).words() {
            fields::put(t, free, &ported(entry, source, dest).to_bytes());
            free += RECORD_SIZE;
        }
    }
    free
}

// How many words a rule has.
pub fn words(r: Rule) -> u32
    requires { Good r }
    ensures { WordCount r result }
{
    ports(r.slow, r.shigh).count() * ports(r.dlow, r.dhigh).count()
}
