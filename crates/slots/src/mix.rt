// Two slots made into one: an operation on words that works digit by digit is an operation on sets.
ghost use Rattle.std.specs.Prelude.{Bool, not, ◌&&◌, ◌||◌, ◌≡◌, ◌<◌, ◌≤◌, ◌^◌, ℕ};
ghost use Rattle.std.specs.Int.Bits.{bit_and, bit_or, and_lt};
ghost use Rattle.std.proofs.lemmas.Nat.{or_lt};
ghost use Rattle.bits.specs.Digits.{Digitwise, bit_diff, or_digits, and_digits, diff_digits, diff_lt};
ghost use Rattle.slots.specs.Slots.{held, with_set};
// Stays: `words: &mut [u64], w: usize`, `w: usize, a: usize`, `a: usize, b: usize`, `b: usize, c: usize`: a slot is named by its list, width and number; three of one list are read and written in one call, so none can hold the list; a value of list and width would have each clause say that the same words come back.
// Stays: `w ≤ 16`, `a < 1048576`, `b < 1048576`, `c < 1048576`: bounds of numbers, so that a place fits a machine word.

/// An operation on words that works digit by digit: what it does to words, and to the question whether an index is in a set.
pub trait WordOp {
    ghost op: { ℕ → ℕ → ℕ };

    ghost on_members: { Bool → Bool → Bool };

    // Stays: the trait's method and its impls are one name; each impl is one operation on words.
    fn apply(x: u64, y: u64) -> u64
        ensures { result ≡ op x y };

    ghost digits: { Digitwise op on_members };

    ghost fits: { (x y : ℕ) → x < 2 ^ 64 → y < 2 ^ 64 → op x y < 2 ^ 64 };
}

/// In one set or the other.
pub struct Either;

/// In both sets.
pub struct Both;

/// In the first set and not in the second.
pub struct Without;

impl WordOp for Either {
    ghost op = { bit_or };

    ghost on_members = { λ x y. x || y };

    ghost digits = { or_digits };

    ghost fits = { λ x y. or_lt 64 x y };

    // Stays: the trait's method and its impls are one name; each impl is one operation on words.
    #[inline]
    fn apply(x: u64, y: u64) -> u64 {
        x | y
    }
}

impl WordOp for Both {
    ghost op = { bit_and };

    ghost on_members = { λ x y. x && y };

    ghost digits = { and_digits };

    ghost fits = { λ x y. and_lt 64 x y };

    // Stays: the trait's method and its impls are one name; each impl is one operation on words.
    #[inline]
    fn apply(x: u64, y: u64) -> u64 {
        x & y
    }
}

impl WordOp for Without {
    ghost op = { bit_diff };

    ghost on_members = { λ x y. x && not y };

    ghost digits = { diff_digits };

    ghost fits = { λ x y h g. diff_lt 64 x y h };

    // Stays: the trait's method and its impls are one name; each impl is one operation on words.
    #[inline]
    fn apply(x: u64, y: u64) -> u64 {
        x ^ (x & y)
    }
}

/// Makes slot `c` what the operation makes of slots `a` and `b`.
// Stays: by word of three slots of one list, read as 0 past its end and not written there.
pub fn combine<O: WordOp>(words: &mut [u64], w: usize, a: usize, b: usize, c: usize)
    requires { (w ≤ 16) × (a < 1048576) × (b < 1048576) × (c < 1048576) }
    ensures { words.new ≡ with_set words.old w c (λ j. O.on_members (held words.old w a j) (held words.old w b j)) }
{
    let (p, q, r) = (a * w, b * w, c * w);
    for k in 0..w {
        let x = cells::get_or(words, p + k, 0);
        let y = cells::get_or(words, q + k, 0);
        cells::put(words, r + k, O::apply(x, y));
    }
}
