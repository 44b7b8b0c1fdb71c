// The table that has the least pair of all.
ghost use Rattle.std.specs.Prelude.{◌≡◌, ◌+◌, ◌<◌, ℕ};

/// The table that has the least pair of all, by its slot.
#[derive(Clone, Copy, Debug, PartialEq, Eq)]
pub struct Choice {
    pub table: u16,
    ghost apart: { (k : ℕ) → k < 2 → table ≡ 256 + k → ⊥ },
}
