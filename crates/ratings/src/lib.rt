#![tactic(auto)]
// How strongly the neighbours of a vertex are connected to it: the ratings that a matching goes by.
ghost use Rattle.std.specs.Prelude.{◌≡◌, ◌+◌, ◌*◌, ◌<◌, ◌≤◌, length, get_or, set};
ghost use Rattle.std.specs.Float.{binary64};
ghost use Rattle.std.specs.Float.Ieee.{add};
ghost use Rattle.spec.specs.Floats.{zero_float};
ghost use Rattle.slots.specs.Rising.{rising_of};
ghost use Rattle.ratings.specs.Lists.{IsSameLoan, ratings_of};
ghost use Rattle.ratings.specs.Rated.{rated_pin, share, rated_open, rated_pins, rated_net, rated_nets};

// Stays: `nets: usize, weights: &[u8]`: two of the fields of a hypergraph, with a partition or without, and neither is needed whole.
// Stays: `nets < 65536`, `e < 65536`: bounds of numbers, so that a place fits a machine word; a type of its own would be unwrapped at each use.
// Stays: `IsSameLoan self.old self.new`: that the lists that come back are those that were lent is a fact of a call; no invariant of the struct can say it.

/// A vertex that is to be matched, and the mates so far: `none`, the number of vertices, stands for no mate yet.
// Stays: a vertex, a list of mates and the number that stands for none, and in greedy's `Scoring` a width, weights and a count of slots: one type for both could name neither.
#[derive(Clone, Copy)]
pub struct Single<'a> {
    pub vertex: usize,
    pub mates: &'a [u16],
    pub none: usize,
}

/// The rating of each vertex, and the vertices that were rated, which stand in the first `count` places of a list.
#[derive(Drop)]
// Stays: one list is by vertex and the other lists the vertices that were rated, so the two are no rows.
pub struct Ratings<'a> {
    pub rating: &'a mut [f64],
    pub touched: &'a mut [u16],
    pub count: usize,
}

// What a net of weight `w` and `pins` pins is rated: its weight over the number of the other pins.
// Stays: a quotient of a weight and a number of pins, which the definition has as `share`.
fn rate_of(w: u8, pins: usize) -> f64
    requires { pins ≤ 64 }
    ensures { result ≡ share w pins }
{
    let others = pins.saturating_sub(1).max(1);
    // Stays: no `From` goes from `usize` to `f64`.
    f64::from(w) / (others as f64)
}

// Adds `r` to the rating of vertex `u`. Returns what it was before.
fn raise(rating: &mut [f64], u: usize, r: f64) -> f64
    ensures former { result ≡ get_or rating.old u zero_float }
    ensures raised { rating.new ≡ set rating.old u (add binary64 result r) }
{
    let x = cells::get_or(rating, u, 0.0);
    cells::put(rating, u, x + r);
    x
}

impl<'a> Ratings<'a> {
    // Pin `u` of a net rated `r`: a vertex whose rating is 0 is listed, so one that is rated 0 is listed again.
    fn rate(&mut self, r: f64, u: usize)
        requires { (u < 65536) × (self.old.count < length self.old.touched.now) }
        ensures lent { IsSameLoan self.old self.new }
        ensures rated { ratings_of self.new ≡ rated_pin r u (ratings_of self.old) }
        ensures few { self.new.count ≤ self.old.count + 1 }
    {
        let x = raise(self.rating, u, r);
        if x == 0.0 {
            // Stays: the number fits by what is known here; `try_from` would add a failure that never comes.
            cells::put(self.touched, self.count, u as u16);
            self.count += 1;
        }
    }

    // The same if `u` may be the mate: another vertex, that has no mate yet.
    fn rate_open(&mut self, single: &Single, r: f64, u: usize)
        requires { (u < 65536) × (self.old.count < length self.old.touched.now) }
        ensures lent { IsSameLoan self.old self.new }
        ensures rated { ratings_of self.new ≡ rated_open single.now.mates.now single.now.none single.now.vertex r u (ratings_of self.old) }
        ensures few { self.new.count ≤ self.old.count + 1 }
    {
        if u == single.vertex {
            return;
        }
        if usize::from(cells::get_or(single.mates, u, 0)) == single.none {
            self.rate(r, u);
        }
    }

    // The pins of a net rated `r`.
    // Stays: each turn writes the same ratings; `for_each` with a closure that holds them is no plainer.
    fn rate_pins(&mut self, single: &Single, r: f64, pins: &[u16])
        requires { self.old.count + length pins.now ≤ length self.old.touched.now }
        ensures lent { IsSameLoan self.old self.new }
        ensures rated { ratings_of self.new ≡ rated_pins single.now.mates.now single.now.none single.now.vertex r pins.now (ratings_of self.old) }
        ensures few { self.new.count ≤ self.old.count + length pins.now }
    {
        for &u in pins {
            self.rate_open(single, r, usize::from(u));
        }
    }

    // Net `e`, whose weight is in `weights`; nets of over 64 pins are passed over.
    fn rate_net(&mut self, words: &[u64], nets: usize, weights: &[u8], single: &Single, e: usize)
        requires { (nets < 65536) × (e < 65536) × (self.old.count + 64 ≤ length self.old.touched.now) }
        ensures lent { IsSameLoan self.old self.new }
        ensures rated { ratings_of self.new ≡ rated_net single.now.mates.now single.now.none single.now.vertex (get_or weights.now e 0) (rising_of words.now 2 (nets + e)) (ratings_of self.old) }
        ensures few { self.new.count ≤ self.old.count + 64 }
    {
        let mut pins = [0u16; 128];
        let len = slots::members(words, 2, nets + e, &mut pins, 0);
        if len <= 64 {
            let r = rate_of(cells::get_or(weights, e, 0), len);
            self.rate_pins(single, r, &pins[..len]);
        }
    }

    /// Rates the neighbours of a vertex along the nets of a list: each net stands in slot `nets` + e of `words`, its weight in `weights`.
    // Stays: each turn writes the same ratings; `for_each` with a closure that holds them is no plainer.
    pub fn rate_nets(
        &mut self,
        words: &[u64],
        nets: usize,
        weights: &[u8],
        single: &Single,
        list: &[u16],
    )
        requires { (nets < 65536) × (self.old.count + length list.now * 64 ≤ length self.old.touched.now) }
        ensures lent { IsSameLoan self.old self.new }
        ensures rated { ratings_of self.new ≡ rated_nets words.now nets weights.now single.now.mates.now single.now.none single.now.vertex list.now (ratings_of self.old) }
        ensures few { self.new.count ≤ self.old.count + length list.now * 64 }
    {
        for &e in list {
            self.rate_net(words, nets, weights, single, usize::from(e));
        }
    }
}
