// The C face: one function for each call, with no logic of its own. Each hands its arguments on and turns the outcome into
// document 01's number and values. Programs may use them, and no crate can depend on a static library, so tablet_c exports them
// under the same clauses again.
ghost use Rattle.std.specs.Prelude.{◌≡◌};
ghost use Rattle.intervals.specs.Bounds.{closing};
ghost use Rattle.intervals.specs.Checks.{checking};
ghost use Rattle.intervals.specs.Lists.{Listing, counting};
ghost use Rattle.rules.specs.Finding.{finding};
ghost use Rattle.sheets.specs.Reading.{Reading};
ghost use Rattle.tables.specs.Compiling.{Compiling};
ghost use Rattle.tables.specs.Looking.{looking};
ghost use Rattle.tablet.specs.Faces.{in32, step_face};

use crate::convert::{ToAnswer, Verdict};
use crate::steps::{Step, Walk};
use answers::Answer;

pub fn ashkavorz_close(width: u32, a: i32, b: i32) -> Answer
    ensures { result ≡ closing width a b }
{
    intervals::close(width, a, b).answer()
}

pub fn ashkavorz_count(width: u32, low: u32, high: u32) -> Answer
    ensures { result ≡ counting width low high }
{
    intervals::count(width, low, high).answer()
}

pub fn ashkavorz_list(width: u32, low: u32, high: u32, out: &mut [u16]) -> Answer
    ensures { Listing width low high out.old result out.new }
{
    intervals::list(width, low, high, out).answer()
}

#[tactic(auto, unfolding(crate::specs::Faces::step_face))]
pub fn ashkavorz_step(walk: Walk) -> Step
    ensures { result ≡ step_face walk }
{
    Step::of(walk, intervals::Walk::from(walk).step())
}

pub fn ashkavorz_check(width: u32, low: u32, high: u32, list: &[u16], k: usize) -> Answer
    ensures { result ≡ in32 (checking width low high list.now k) }
{
    intervals::check(width, low, high, list, k)
        .map(Verdict)
        .answer()
}

pub fn ashkavorz_compile(rules: &[u8], table: &mut [u8]) -> Answer
    ensures { Compiling rules.now table.old result table.new }
{
    tables::compile(rules, table).answer()
}

pub fn ashkavorz_find_rule(rules: &[u8], header: &[u8]) -> Answer
    ensures { result ≡ finding rules.now header.now }
{
    rules::find_rule(rules, header).answer()
}

pub fn ashkavorz_find_word(table: &[u8], k: usize, header: &[u8]) -> Answer
    ensures { result ≡ looking table.now k header.now }
{
    tables::find_word(table, k, header).answer()
}

pub fn ashkavorz_read_sheet(text: &[u8], rules: &mut [u8]) -> Answer
    ensures { Reading text.now rules.old result rules.new }
{
    sheets::read(text, rules).answer()
}
