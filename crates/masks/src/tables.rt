// The tables of the masks: their indices, weighed.
ghost use Rattle.std.specs.Prelude.{◌≡◌, ◌<◌, ◌≤◌, length, get_or};
ghost use Rattle.masks.specs.Tables.{work_at, Sized};
// Stays: `l: usize, r: usize`: two masks that are joined, each a place by itself; no list goes with them.
// Stays: `1 ≤ s`: the mask of no members has no table; a type of its own for masks would be unwrapped at each list.
// Stays: `result ≤ 1024`: what a weighing promises, so that its callers' sums and shifts fit; no type of a word says it.

use super::Planes;

/// The masks' tables, and the bits of each.
// Stays: parts of one piece of lent words, as in `Masks`; of these a search only reads.
#[derive(Clone, Copy)]
pub struct Tables<'a> {
    kept: &'a [[u64; 2]],
    bits: &'a [u64],
    planes: Planes<'a>,
    ghost sized: { Sized kept.now bits.now planes.weights.now },
}

impl<'a> Tables<'a> {
    /// The tables of masks that are weighed.
    pub fn of(kept: &'a [[u64; 2]], bits: &'a [u64], weights: &'a [u8]) -> Tables<'a>
        requires { Sized kept.now bits.now weights.now }
        ensures kept { result.kept.now ≡ kept.now }
        ensures bits { result.bits.now ≡ bits.now }
        ensures weights { result.planes.weights.now ≡ weights.now }
    {
        Tables::of_planes(kept, bits, Planes::of(weights))
    }

    /// The same, where the digits of the weights are at hand.
    pub fn of_planes(kept: &'a [[u64; 2]], bits: &'a [u64], planes: Planes<'a>) -> Tables<'a>
        requires { Sized kept.now bits.now planes.weights.now }
        ensures kept { result.kept.now ≡ kept.now }
        ensures bits { result.bits.now ≡ bits.now }
        ensures weights { result.planes.weights.now ≡ planes.entry.weights.now }
    {
        Tables { kept, bits, planes }
    }

    /// How many masks there are.
    // Stays: std's name for a number of places, with the bound that the search counts on.
    #[inline]
    pub fn len(&self) -> usize
        ensures { (result ≡ length self.now.bits.now) × (result ≤ 4096) }
    {
        self.bits.len()
    }

    /// The bits of the table of mask `s`.
    #[inline]
    pub fn bits(&self, s: usize) -> u64
        requires { (1 ≤ s) × (s < length self.now.bits.now) }
        ensures { result ≡ work_at self.now.kept.now self.now.planes.weights.now s s }
    {
        self.bits[s]
    }

    /// The work bits of the step that joins the tables of the masks `l` and `r`. `weigh` says the same of any two rows.
    pub fn work(&self, l: usize, r: usize) -> u64
        requires { (l < length self.now.bits.now) × (r < length self.now.bits.now) }
        ensures { (result ≡ work_at self.now.kept.now self.now.planes.weights.now l r) × (result ≤ 1024) }
    {
        self.planes.weigh(self.kept[l], self.kept[r])
    }
}
