// The set digits of a word, one after another.
ghost use Rattle.std.specs.Prelude.{◌≡◌, ◌≤◌};
ghost use Rattle.std.specs.Iterator.{YieldsFirst, item_count};
ghost use Rattle.bits.specs.Lowest.{places};

/// The numbers `base` + i for the places i of a word's set digits, from the lowest up.
// Stays: the number where the places begin, and the digits that are left; one type for this and for another two numbers could name neither.
#[derive(Clone, Copy)]
pub struct Digits {
    base: usize,
    rest: u64,
    ghost low: { base ≤ 65536 },
}

impl Digits {
    /// The places of the set digits of `x`, from the lowest up.
    #[inline]
    pub fn of(x: u64) -> Digits
        ensures { (result.base ≡ 0) × (result.rest ≡ x) }
    {
        Digits { base: 0, rest: x }
    }

    /// The numbers `base` + i for the places i of the set digits of `x`, from the lowest up.
    // Stays: it makes the iterator, and `above` says where its numbers begin. `base ≤ 65536` is the ghost field, asked for where the value is made.
    #[inline]
    pub fn above(base: usize, x: u64) -> Digits
        requires { base ≤ 65536 }
        ensures { (result.base ≡ base) × (result.rest ≡ x) }
    {
        Digits { base, rest: x }
    }
}

impl Iterator for Digits {
    type Item = usize;

    ghost next_gives = { YieldsFirst (λ s. places s.base 64 s.rest) };

    ghost remaining = { item_count (λ s. places s.base 64 s.rest) };

    // Stays: std counts zeros in `u32`, from which no `From` goes to `usize`.
    #[inline]
    #[tactic(auto, using(crate::proofs::DigitLaws::digit_steps))]
    fn next(&mut self) -> Option<usize> {
        if self.rest == 0 {
            return None;
        }
        let i = self.base + self.rest.trailing_zeros() as usize;
        self.rest &= self.rest - 1;
        Some(i)
    }
}
