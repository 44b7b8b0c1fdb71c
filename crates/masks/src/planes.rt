// The weights' binary digits as words: a row is weighed by the digits that it has in common with each.
ghost use Rattle.std.specs.Prelude.{List, [], ◌≡◌, ℕ, ◌+◌, ◌*◌, ◌/◌, ◌%◌, ◌^◌, ◌<◌, ◌≤◌, length};
ghost use Rattle.slots.specs.Weigh.{Light, weighed};
ghost use Rattle.masks.specs.Rows.{in_either};
ghost use Rattle.masks.specs.Planes.{HasDigits};
ghost use Rattle.masks.specs.Weights.{weight_below};
// Stays: `128 ≤ length weights.now`, `Light weights.now`: asked where the digits are made; what the weights are is in `Planes` from there on.
// Stays: `result ≤ 1024`: what a weighing promises, so that its callers' sums and shifts fit; no type of a word says it.

// The binary digits of 64 weights: place i of each word has a digit of weight i.
#[derive(Clone, Copy)]
struct WordPlanes {
    ones: u64,
    twos: u64,
    fours: u64,
    eights: u64,
}

impl WordPlanes {
    // The digits of one weight more, before the others.
    fn pushed(self, weight: u8) -> WordPlanes
        requires { (self.ones < 2 ^ 63) × (self.twos < 2 ^ 63) × (self.fours < 2 ^ 63) × (self.eights < 2 ^ 63) }
        ensures { (result.ones ≡ 2 * self.ones + weight % 2) × (result.twos ≡ 2 * self.twos + weight / 2 % 2) × (result.fours ≡ 2 * self.fours + weight / 4 % 2) × (result.eights ≡ 2 * self.eights + weight / 8 % 2) }
    {
        let w = u64::from(weight);
        WordPlanes {
            ones: 2 * self.ones + w % 2,
            twos: 2 * self.twos + w / 2 % 2,
            fours: 2 * self.fours + w / 4 % 2,
            eights: 2 * self.eights + w / 8 % 2,
        }
    }

    // The digits of the weights from `base` on, the last weight first.
    // Stays: i counts down the places of weights and of their digits; `weights[base..base + 64].iter().rev()` is longer, and names no place.
    fn of(weights: &[u8], base: usize) -> WordPlanes
        requires { (base + 64 ≤ length weights.now) × Light weights.now }
        ensures { HasDigits weights.now base 64 result.ones result.twos result.fours result.eights }
    {
        let mut planes = WordPlanes {
            ones: 0,
            twos: 0,
            fours: 0,
            eights: 0,
        };
        for i in (0..64).rev() {
            planes = planes.pushed(weights[base + i]);
        }
        planes
    }

    // The summed weights of the places of the set digits of `x`.
    fn weigh(&self, x: u64) -> u64
        ensures { (wt : List ℕ) (base : ℕ) → Light wt → HasDigits wt base 64 self.now.ones self.now.twos self.now.fours self.now.eights → (result ≡ weight_below wt base 64 x) × (result ≤ 512) }
    {
        if x == 0 {
            return 0;
        }
        let ones = (x & self.ones).count_ones();
        let twos = (x & self.twos).count_ones();
        let fours = (x & self.fours).count_ones();
        let eights = (x & self.eights).count_ones();
        u64::from(ones + 2 * twos + 4 * fours + 8 * eights)
    }
}

/// 128 weights, with their binary digits as words.
#[derive(Clone, Copy)]
pub struct Planes<'a> {
    /// the weights
    pub weights: &'a [u8],
    low: WordPlanes,
    high: WordPlanes,
    ghost light: { Light weights.now },
    ghost low_digits: { HasDigits weights.now 0 64 low.ones low.twos low.fours low.eights },
    ghost high_digits: { HasDigits weights.now 64 64 high.ones high.twos high.fours high.eights },
}

impl<'a> Planes<'a> {
    /// The digits of weights.
    pub fn of(weights: &'a [u8]) -> Planes<'a>
        requires { (128 ≤ length weights.now) × Light weights.now }
        ensures { result.weights.now ≡ weights.now }
    {
        let low = WordPlanes::of(weights, 0);
        let high = WordPlanes::of(weights, 64);
        Planes { weights, low, high }
    }

    /// The summed weights of the indices of either row.
    // Stays: a row is two words, written out. `weigh` of the crate takes a list, whose digits are not at hand.
    pub fn weigh(&self, a: [u64; 2], b: [u64; 2]) -> u64
        ensures { (result ≡ weighed self.now.weights.now [] (in_either a b) 128) × (result ≤ 1024) }
    {
        let low = self.low.weigh(a[0] | b[0]);
        let high = self.high.weigh(a[1] | b[1]);
        low + high
    }
}
