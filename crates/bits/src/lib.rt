// Powers of two, prefix masks, and the questions about binary digits that document 01's count and its largest blocks ask.
// Everything here serves other crates, so a function may require what its callers have tested.
#![tactic(auto)]

ghost use Rattle.std.specs.Prelude.{◌≡◌, suc, ◌%◌, ◌^◌, ◌≤◌, ◌<◌};
ghost use Rattle.bits.specs.Digits.{Apart, Ones};
ghost use Rattle.bits.specs.Masks.{Power, mask_of};

// The masks of width 16 (document 01, "Intervals and words"): entry p has the top p of 16 bits set.
const MASKS: [u16; 17] = [
    0, 32768, 49152, 57344, 61440, 63488, 64512, 65024, 65280, 65408, 65472, 65504, 65520, 65528,
    65532, 65534, 65535,
];

// The mask of width n with k free bits. A narrower width's mask is the table's, moved down. That a width is 16 at most is asked
// here, of `free_bits`, of `Word::formed` and of `first_ill` in intervals: a type for widths would be opened at all four.
pub fn mask(n: u32, k: u32) -> u16
    requires { (0 < n) × (n ≤ 16) × (k ≤ n) }
    ensures { result ≡ mask_of n k }
{
    let p = (n - k) as usize;
    MASKS[p] >> (16 - n)
}

// 2 to the k.
pub fn power(k: u32) -> u32
    requires { k ≤ 16 }
    ensures { Power k result }
{
    1u32 << k
}

// How many of the s lowest bits of x are 1.
pub fn ones_below(x: u32, s: u32) -> u32
    requires { s ≤ 16 }
    ensures { Ones s x result }
{
    u32::count_ones(x % power(s))
}

// How many of the lowest bits of x are 0 before its first 1: 32 where x is 0.
pub fn low_zeros(x: u32) -> u32
    ensures { (result ≤ 32) × (x % 2 ^ result ≡ 0) × (result < 32 → x % 2 ^ suc result ≡ 0 → ⊥) }
{
    u32::trailing_zeros(x)
}

// The highest bit of x that is 1: by leading zeros, the form that document 01 names, where `ilog2` says the same.
pub fn highest(x: u32) -> u32
    requires { 0 < x }
    ensures { (2 ^ result ≤ x) × (x < 2 ^ suc result) }
{
    31 - u32::leading_zeros(x)
}

// The highest bit at which a and b differ.
pub fn highest_apart(a: u32, b: u32) -> u32
    requires { (a < b) × (b < 65536) }
    ensures { Apart a b result }
{
    highest(a ^ b)
}
