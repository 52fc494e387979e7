// A rule list that has passed its tests.
ghost use Rattle.std.specs.Prelude.{◌≤◌, length};
ghost use Rattle.records.specs.Layout.{rule_limit};
ghost use Rattle.rules.specs.Lists.{NoneBad};

use records::RULE_SIZE;

#[derive(Clone, Copy)]
pub struct RuleList<'a> {
    pub records: &'a [[u8; RULE_SIZE]],
    pub ghost few: { length records.now ≤ rule_limit },
    pub ghost good: { NoneBad records.now },
}
