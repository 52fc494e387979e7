// Which record of a table a header finds: the earliest that matches, whatever the length of its prefixes.
ghost use Rattle.std.specs.Prelude.{◌&&◌, ◌≡◌, ◌≤◌, eqb, length};
ghost use Rattle.std.specs.Int.Bits.{bit_and};
ghost use Rattle.records.specs.Layout.{word_limit};
ghost use Rattle.tables.specs.Looking.{found_as, looking, record_formed?, record_found, record_matches?};
ghost use Rattle.tables.specs.Records.{EachFormed, first_among, first_ill_among};

use crate::compiling::room;
use records::{ACTION_AT, Action, KEY_SIZE, MASK_AT, NUMBER_AT, RECORD_SIZE};

// A record's index, the number of the rule that it belongs to, and that rule's action.
#[derive(Clone, Copy, Debug, PartialEq, Eq)]
pub struct Found {
    pub index: u32,
    pub rule: u32,
    pub action: Action,
}

#[derive(Clone, Copy, Debug, PartialEq, Eq)]
pub enum LookError {
    // 9: the stated count of words exceeds the table's room.
    Stated,
    // 10: the lowest index of an ill-formed record.
    Ill(u32),
    // 11: the header has not 13 bytes.
    Header,
}

// What differs so far, d, with what differs between x under the mask and the value. Nothing is tested on the way, so that
// the loops below have no early exit and run over several bytes at once.
#[tactic(auto, using(crate::proofs::Gathering::gathers))]
fn differing(d: u8, x: u8, mask: u8, value: u8) -> u8
    ensures { eqb result 0 ≡ (eqb d 0 && eqb (bit_and x mask) value) }
{
    d | ((x & mask) ^ value)
}

fn matches_record(bytes: &[u8; RECORD_SIZE], header: &[u8; KEY_SIZE]) -> bool
    ensures { result ≡ record_matches? bytes.now header.now }
{
    let mut d = 0;
    for j in 0..KEY_SIZE {
        d = differing(d, header[j], bytes[MASK_AT + j], bytes[j]);
    }
    d == 0
}

// A record is well formed: it matches its own value, and its action is known.
fn formed_record(bytes: &[u8; RECORD_SIZE]) -> bool
    ensures { result ≡ record_formed? bytes.now }
{
    let value = bytes.first_chunk::<KEY_SIZE>().unwrap();
    matches_record(bytes, value) && Action::try_from(bytes[ACTION_AT]).is_ok()
}

// The lowest index of an ill-formed record.
fn first_ill(records: &[[u8; RECORD_SIZE]]) -> Option<usize>
    ensures { result ≡ first_ill_among 0 records.now }
{
    records.iter().position(|record| !formed_record(record))
}

// The first record that matches.
#[tactic(auto, unfolding(crate::specs::Records::first_among))]
fn first_record(records: &[[u8; RECORD_SIZE]], header: &[u8; KEY_SIZE]) -> Option<Found>
    requires formed { EachFormed records.now }
    requires few { length records.now ≤ word_limit }
    ensures { record_found result ≡ first_among 0 records.now header.now }
{
    for (i, record) in records.iter().enumerate() {
        if matches_record(record, header) {
            return Some(Found {
                index: i as u32,
                rule: u32::from(record[NUMBER_AT]),
                action: Action::try_from(record[ACTION_AT]).unwrap(),
            });
        }
    }
    None
}

// The first of the first k records that matches, or nothing where none does. The count stands beside the table, as C has it.
#[tactic(auto, using(crate::proofs::Chunked::ill_in, crate::proofs::Chunked::among_in, crate::proofs::Chunked::none_each), unfolding(crate::specs::Looking::looking, crate::specs::Looking::looking_formed, answers::specs::Answers::behind_ill))]
pub fn find_word(table: &[u8], k: usize, header: &[u8]) -> Result<Option<Found>, LookError>
    ensures { found_as result ≡ looking table.now k header.now }
{
    if room(table.len()) < k {
        return Err(LookError::Stated);
    }
    let (all, _) = table.as_chunks::<RECORD_SIZE>();
    let records = &all[..k];
    if let Some(i) = first_ill(records) {
        return Err(LookError::Ill(i as u32));
    }
    let bytes = header.as_array::<KEY_SIZE>().ok_or(LookError::Header)?;
    Ok(first_record(records, bytes))
}
