// What the scores of pairs are made of beside the tables.
ghost use Rattle.std.specs.Prelude.{◌≤◌};
ghost use Rattle.slots.specs.Weigh.{Light};

/// How many words a set has, at most 16; the weights of the indices, none above 8 bits; and how many slots are the start's: of two of those the
/// lower goes first in a pair, and a new table goes first in its pairs with all that were there before it.
// Stays: other structs of two numbers and a list have no facts, or others: here one on the width and one on the weights.
#[derive(Clone, Copy)]
pub struct Scoring<'a> {
    pub width: usize,
    pub weights: &'a [u8],
    pub start: usize,
    ghost narrow: { width ≤ 16 },
    ghost light: { Light weights.now },
}
