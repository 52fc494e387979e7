// The tests of a rule list, lowest number first: 5, 6, and 7 with the lowest bad rule and its first bad field.
ghost use Rattle.std.specs.Prelude.{IfOk, ◌≡◌};
ghost use Rattle.records.specs.Rules.{all_rules};
ghost use Rattle.rules.specs.Faults.{bad_field, field_number, field_or_0, tested_rules};
ghost use Rattle.rules.specs.Lists.{rules_in, tested_as};

use crate::lists::RuleList;
use records::{Action, RULE_LIMIT, RULE_SIZE, Rule};

// The tests of a rule's fields, by document 01's numbers.
#[derive(Clone, Copy, Debug, PartialEq, Eq)]
pub enum Field {
    // The flag is 0 or 1.
    Flag = 1,
    // No protocol stands under the flag for any.
    Spare = 2,
    SourceLength = 3,
    SourceBits = 4,
    DestLength = 5,
    DestBits = 6,
    SourcePorts = 7,
    DestPorts = 8,
    Action = 9,
}

impl From<Field> for u32 {
    ghost from_gives = { λ field number. number ≡ field_number field };

    fn from(field: Field) -> u32 {
        field as u32
    }
}

#[derive(Clone, Copy, Debug, PartialEq, Eq)]
pub enum ListFault {
    // 5: the length is no multiple of a rule's.
    Odd,
    // 6: there are too many rules.
    Many,
    // 7: the lowest bad rule, and its first bad field.
    Bad { rule: u32, field: Field },
}

// The first bad field of a rule.
#[tactic(auto, unfolding(crate::specs::Faults::bad_field, crate::specs::Faults::first_true))]
fn bad_field(r: Rule) -> Option<Field>
    ensures { field_or_0 result ≡ bad_field r }
{
    if 1 < r.flag {
        return Some(Field::Flag);
    }
    if r.flag == 1 && r.proto != 0 {
        return Some(Field::Spare);
    }
    if 32 < r.slen {
        return Some(Field::SourceLength);
    }
    if r.source().beyond() {
        return Some(Field::SourceBits);
    }
    if 32 < r.dlen {
        return Some(Field::DestLength);
    }
    if r.dest().beyond() {
        return Some(Field::DestBits);
    }
    if r.shigh < r.slow {
        return Some(Field::SourcePorts);
    }
    if r.dhigh < r.dlow {
        return Some(Field::DestPorts);
    }
    if Action::try_from(r.action).is_err() {
        return Some(Field::Action);
    }
    None
}

#[tactic(auto, using(records::proofs::Chunks::rules_chunks), unfolding(crate::specs::Faults::tested_rules, crate::specs::Faults::first_bad))]
pub fn test_rules(rules: &[u8]) -> Result<RuleList<'_>, ListFault>
    ensures says { tested_as result ≡ tested_rules rules.now }
    ensures holds { IfOk result (λ list. rules_in list.records.now ≡ all_rules rules.now) }
{
    let (records, rest) = rules.as_chunks::<RULE_SIZE>();
    if !rest.is_empty() {
        return Err(ListFault::Odd);
    }
    if RULE_LIMIT < records.len() {
        return Err(ListFault::Many);
    }
    for (i, record) in records.iter().enumerate() {
        if let Some(field) = bad_field(Rule::from_bytes(record)) {
            return Err(ListFault::Bad {
                rule: i as u32,
                field,
            });
        }
    }
    Ok(RuleList { records })
}
