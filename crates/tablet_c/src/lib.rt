// The C library: the C face's functions exported, each with the clauses of the function that it hands its arguments on to.
// include/ashkavorz.h declares them for C.
#![tactic(auto)]

ghost use Rattle.std.specs.Prelude.{◌≡◌};
ghost use Rattle.intervals.specs.Bounds.{closing};
ghost use Rattle.intervals.specs.Checks.{checking};
ghost use Rattle.intervals.specs.Lists.{Listing, counting};
ghost use Rattle.rules.specs.Finding.{finding};
ghost use Rattle.sheets.specs.Reading.{Reading};
ghost use Rattle.tables.specs.Compiling.{Compiling};
ghost use Rattle.tables.specs.Looking.{looking};
ghost use Rattle.tablet.specs.Faces.{in32, step_face};

use answers::Answer;
use tablet::{Step, Walk};

#[unsafe(no_mangle)]
pub extern "C" fn ashkavorz_close(width: u32, a: i32, b: i32) -> Answer
    ensures { result ≡ closing width a b }
{
    tablet::ashkavorz_close(width, a, b)
}

#[unsafe(no_mangle)]
pub extern "C" fn ashkavorz_count(width: u32, low: u32, high: u32) -> Answer
    ensures { result ≡ counting width low high }
{
    tablet::ashkavorz_count(width, low, high)
}

#[unsafe(no_mangle)]
pub extern "C" fn ashkavorz_list(width: u32, low: u32, high: u32, out: &mut [u16]) -> Answer
    ensures { Listing width low high out.old result out.new }
{
    tablet::ashkavorz_list(width, low, high, out)
}

#[unsafe(no_mangle)]
pub extern "C" fn ashkavorz_step(walk: Walk) -> Step
    ensures { result ≡ step_face walk }
{
    tablet::ashkavorz_step(walk)
}

#[unsafe(no_mangle)]
pub extern "C" fn ashkavorz_check(width: u32, low: u32, high: u32, list: &[u16], k: usize) -> Answer
    ensures { result ≡ in32 (checking width low high list.now k) }
{
    tablet::ashkavorz_check(width, low, high, list, k)
}

#[unsafe(no_mangle)]
pub extern "C" fn ashkavorz_compile(rules: &[u8], table: &mut [u8]) -> Answer
    ensures { Compiling rules.now table.old result table.new }
{
    tablet::ashkavorz_compile(rules, table)
}

#[unsafe(no_mangle)]
pub extern "C" fn ashkavorz_find_rule(rules: &[u8], header: &[u8]) -> Answer
    ensures { result ≡ finding rules.now header.now }
{
    tablet::ashkavorz_find_rule(rules, header)
}

#[unsafe(no_mangle)]
pub extern "C" fn ashkavorz_find_word(table: &[u8], k: usize, header: &[u8]) -> Answer
    ensures { result ≡ looking table.now k header.now }
{
    tablet::ashkavorz_find_word(table, k, header)
}

#[unsafe(no_mangle)]
pub extern "C" fn ashkavorz_read_sheet(text: &[u8], rules: &mut [u8]) -> Answer
    ensures { Reading text.now rules.old result rules.new }
{
    tablet::ashkavorz_read_sheet(text, rules)
}
