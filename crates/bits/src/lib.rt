#![tactic(auto)]
//! Digits of words, and the sub-masks of a mask.
ghost use Rattle.std.specs.Prelude.{◌≡◌, ◌^◌, ◌<◌, ◌≤◌, min};
ghost use Rattle.std.specs.Int.Count.{ones, count_trailing_zeros};
ghost use Rattle.spec.specs.ImproveClaims.{most_splits};

mod digits; // digits.rt: the set digits of a word, one after another

pub use digits::Digits;

/// The place of the lowest set digit.
// Stays: std counts zeros in `u32`, from which no `From` goes to `usize`.
pub fn low(x: u64) -> usize
    requires { 0 < x }
    ensures { (result ≡ count_trailing_zeros 64 x) × (result < 64) }
{
    x.trailing_zeros() as usize
}

/// How many digits are set.
// Stays: std counts ones in `u32`, from which no `From` goes to `usize`.
pub fn count_ones(x: u64) -> usize
    ensures { (result ≡ ones x) × (result ≤ 64) }
{
    x.count_ones() as usize
}

/// How many sub-masks the mask `rest` has. The walk goes from `rest` down to 0.
pub fn count_parts(rest: u64) -> u64
    requires { rest < 18446744073709551615 }
    ensures { result ≡ 2 ^ ones rest }
{
    let mut sub = rest;
    let mut n: u64 = 0;
    // Stays: a walk over sub-masks, over no list: a loop whose break has the value.
    let total = loop {
        n += 1;
        if sub == 0 {
            break n;
        }
        sub = (sub - 1) & rest;
    };
    total
}

/// The most splits that a search over `m` members tries; above 12 members, those of 12.
pub fn most_splits(m: usize) -> u64
    ensures { result ≡ most_splits (min m 12) }
{
    let n = m.min(12);
    let mut splits: u64 = 0;
    let mut masks: u64 = 1;
    // Stays: a step repeated, over no list; `fold` over the range would hand both numbers on as a pair.
    for k in 0..n {
        splits = 3 * splits + masks - 1;
        masks = 2 * masks;
    }
    splits
}
