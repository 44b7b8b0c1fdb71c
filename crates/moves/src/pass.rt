ghost use Rattle.std.specs.Prelude.{◌≡◌, ◌+◌, ◌-◌, ◌/◌, ◌<◌, ◌≤◌, ltb};
ghost use Rattle.moves.specs.Sums.{Counted};

// Stays: `n ≤ 128`: a bound of a number, so that the sum fits a machine word; a type of its own would be unwrapped at each use.

/// A pass: how many vertices were moved, the sum of their gains, the largest sum, after how many moves it was reached, and whether the pass is over.
#[derive(Clone, Copy)]
// Stays: the sums are read after the pass is over too, so they are no `Option` in the place of the flag.
pub struct Pass {
    pub count: usize,
    pub sum: f64,
    pub best: f64,
    pub peak: usize,
    pub over: bool,
}

impl Pass {
    /// Counts a move of a vertex that was taken with this key; the vertex itself is put into a list by the caller.
    pub fn counted(&mut self, key: f64)
        requires { self.old.count < 65536 }
        ensures count { self.new.count ≡ self.old.count + 1 }
        ensures sums { Counted self.old.count self.old.sum self.old.best self.old.peak key self.new.sum self.new.best self.new.peak }
    {
        self.count += 1;
        self.sum += draws::round_to(key, 1e-6);
        if self.best + 1e-9 < self.sum {
            self.best = self.sum;
            self.peak = self.count;
        }
    }

    /// Were more moves made since the largest sum than the limit for `n` vertices.
    pub fn is_past_limit(&self, n: usize) -> bool
        requires { n ≤ 128 }
        ensures { result ≡ ltb (50 + n / 4) (self.now.count - self.now.peak) }
    {
        50 + n / 4 < self.count.saturating_sub(self.peak)
    }
}
