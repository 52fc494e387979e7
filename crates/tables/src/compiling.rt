// Compiling a rule list into a lent table. The words are counted first, and written only where they fit.
ghost use Rattle.std.specs.Prelude.{◌≡◌, ◌*◌, ◌≤◌, length};
ghost use Rattle.entries.specs.Words.{entries_of, needed};
ghost use Rattle.fields.specs.Writes.{write_at};
ghost use Rattle.records.specs.Entries.{table_bytes};
ghost use Rattle.records.specs.Layout.{record_size, room_of};
ghost use Rattle.rules.specs.Lists.{rules_in};
ghost use Rattle.tables.specs.Compiling.{Compiling, compile_fault, compiled_as};

use records::{RECORD_SIZE, Rule, WORD_LIMIT};
use rules::{ListFault, RuleList};

#[derive(Clone, Copy, Debug, PartialEq, Eq)]
pub enum CompileError {
    Rules(ListFault),
    // 8: so many words are needed, more than the table has room for.
    Space(u32),
}

impl From<ListFault> for CompileError {
    ghost from_gives = { λ fault error. error ≡ compile_fault fault };

    fn from(fault: ListFault) -> CompileError {
        CompileError::Rules(fault)
    }
}

// How many words a list needs.
#[tactic(auto, using(rules::proofs::Goods::fine_at), unfolding(entries::specs::Words::needed))]
fn total(list: RuleList<'_>) -> u32
    ensures { result ≡ needed (rules_in list.entry.records.now) }
{
    let mut words = 0;
    for record in list.records {
        words += entries::words(Rule::from_bytes(record));
    }
    words
}

// Writes the records of all rules, each rule's on from the first free record: the form that document 01 names, so the place is
// counted here.
#[tactic(auto, using(rules::proofs::Goods::fine_at), unfolding(entries::specs::Words::entries_of))]
fn fill(list: RuleList<'_>, table: &mut [u8])
    requires { record_size * needed (rules_in list.records.now) ≤ length table.old }
    ensures { table.new ≡ write_at table.old 0 (table_bytes (entries_of 0 (rules_in list.entry.records.now))) }
{
    let mut at = 0;
    for (i, record) in list.records.iter().enumerate() {
        at += entries::put_rule(&mut table[at..], Rule::from_bytes(record), i as u8);
    }
}

// How many records a table of so many bytes has room for.
pub fn room(bytes: usize) -> usize
    ensures { result ≡ room_of bytes }
{
    (bytes / RECORD_SIZE).min(WORD_LIMIT)
}

// Compiles where there is room, and answers how many words the table has.
#[tactic(auto, unfolding(crate::specs::Compiling::compiling, rules::specs::Faults::behind_rules, answers::specs::Lent::left_by))]
pub fn compile(rules: &[u8], table: &mut [u8]) -> Result<u32, CompileError>
    ensures { Compiling rules.now table.old (compiled_as result) table.new }
{
    let list = rules::test_rules(rules)?;
    let words = total(list);
    if room(table.len()) < words as usize {
        return Err(CompileError::Space(words));
    }
    fill(list, table);
    Ok(words)
}
