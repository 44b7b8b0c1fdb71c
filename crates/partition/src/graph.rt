ghost use Rattle.partition.specs.Layout.{Placed};

// Stays: `e < 65536`, `here < 65536`, `there < 65536`: bounds of numbers, so that a place fits a machine word; a type of its own would be unwrapped at each use.

use crate::Pair;
use crate::place::Place;
use bits::Digits;

/// A hypergraph and a partition of its vertices, in slots of lent words, with the weight of each net.
#[derive(Clone, Copy)]
// Stays: words are read by slot and weights by net, so the two lists are no rows.
pub struct Hypergraph<'a> {
    pub words: &'a [u64],
    pub weights: &'a [u8],
    pub place: Place,
    ghost placed: { Placed words.now place },
}

impl<'a> Hypergraph<'a> {
    ghost use Rattle.std.specs.Prelude.{◌≡◌, ◌<◌, ◌≤◌};
    ghost use Rattle.spec.specs.Hypergraph.{fold_over};
    ghost use Rattle.bits.specs.Lowest.{places};
    ghost use Rattle.slots.specs.Rising.{rising_of};
    ghost use Rattle.partition.specs.Layout.{gain_step, gain_sum};
    ghost use Rattle.partition.specs.Gains.{IsGain};
    ghost use Rattle.partition.specs.Few.{AreRead};

    /// The gain with net `e`: `here` and `there` are the vertex's side and the other.
    fn gain_step(&self, here: Pair, there: Pair, e: usize, g: f64) -> f64
        requires { (e < 65536) × AreRead self.now.words.now here × AreRead self.now.words.now there }
        ensures { result ≡ gain_step self.now.words.now self.now.place.nets here.slot there.slot self.now.weights.now e g }
    {
        let net = crate::read(self.words, self.place.nets + e);
        let x = crate::few(net, here);
        let y = crate::few(net, there);
        crate::gain_net(x, y, cells::get_or(self.weights, e, 0), g)
    }

    /// The gain `g` with the nets `base` + i for each set digit i of `x`.
    fn gain_word(&self, here: Pair, there: Pair, base: usize, x: u64, g: f64) -> f64
        requires { (base ≤ 192) × AreRead self.now.words.now here × AreRead self.now.words.now there }
        ensures { result ≡ fold_over (gain_step self.now.words.now self.now.place.nets here.slot there.slot self.now.weights.now) (places base 64 x) g }
    {
        let mut sum = g;
        for e in Digits::above(base, x) {
            sum = self.gain_step(here, there, e, sum);
        }
        sum
    }

    /// The gain with the nets of slot `s`, of four words.
    // Stays: a slot is a place in lent words of the workspace that the C interface states, and may reach past their end, where a read gives 0; so it is no slice.
    fn gain_sum(&self, here: usize, there: usize, s: usize) -> f64
        requires { (here < 65536) × (there < 65536) × (s < 65536) }
        ensures { result ≡ gain_sum self.now.words.now self.now.place.nets here there self.now.weights.now (rising_of self.now.words.now 4 s) }
    {
        let p = s * 4;
        let side = crate::read(self.words, here);
        let other = crate::read(self.words, there);
        let mut g = 0.0;
        for k in 0..4 {
            let x = cells::get_or(self.words, p + k, 0);
            g = self.gain_word(side, other, k * 64, x, g);
        }
        g
    }

    /// The gain of the move of vertex `v`.
    pub fn gain(&self, v: usize) -> f64
        requires { v < self.now.place.vertex_count }
        ensures { IsGain self.now.words.now self.now.place.nets self.now.place.sides self.now.place.net_count self.now.place.vertex_count self.now.weights.now v result }
    {
        let Place {
            sides,
            vertices,
            ..
        } = self.place;
        if slots::has(self.words, 2, sides + 1, v) {
            return self.gain_sum(sides + 1, sides, vertices + v);
        }
        self.gain_sum(sides, sides + 1, vertices + v)
    }
}
