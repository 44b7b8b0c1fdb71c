#![tactic(auto)]
//! Greedy's tables: their sets, by slot in lent words, and beside these typed local lists. What its crates share: what is known of a table's least
//! pair, the table that has the least pair of all, and the order of pairs.

ghost use Rattle.std.specs.Prelude.{◌≡◌};
ghost use Rattle.spec.specs.declared.Refusal.TheVariants.{TableTooWide};
ghost use Rattle.spec.specs.Greedy.{Key, key_before};
ghost use Rattle.tables.specs.Lists.{chosen_code};
ghost use Rattle.tables.specs.Scores.{Scores};

use choice::Choice;
use spec::Refusal;

pub mod choice;
pub mod row;
pub mod scoring;
pub mod slotted;

/// The slot of the indices that stay whatever is merged: the outputs, and what is named by leaves that are not planned.
// Stays: a slot past those of the tables; the sets lie in slots of the stated words by number, so a name for the number is the plain form.
pub const OUTSIDE: usize = 256;

/// The slot of what two live tables or more hold.
// Stays: a slot past those of the tables; the sets lie in slots of the stated words by number, so a name for the number is the plain form.
pub const TWICE: usize = 257;

/// The slot of what three live tables or more hold.
// Stays: a slot past those of the tables; the sets lie in slots of the stated words by number, so a name for the number is the plain form.
pub const THRICE: usize = 258;

/// A pair is too wide: one of its tables, or the table that a merge of them makes, has over 40 bits.
#[derive(Clone, Copy, Debug, PartialEq, Eq)]
pub struct PairTooWide;

impl From<PairTooWide> for Refusal {
    ghost from_gives = { λ _ refusal. refusal ≡ TableTooWide };

    fn from(_: PairTooWide) -> Refusal {
        Refusal::TableTooWide
    }
}

impl Choice {
    /// What a slot answers: 256 stands for no table, and 257 says that a pair is too wide. All others are tables'.
    pub fn of(table: u16) -> Result<Option<Choice>, PairTooWide>
        ensures { chosen_code result ≡ table }
    {
        // Stays: the definitions know what is chosen by a table's slot, and by these two where there is none.
        match table {
            256 => Ok(None),
            257 => Err(PairTooWide),
            _ => Ok(Some(Choice { table })),
        }
    }
}

/// A pair's place in greedy's order, which is the derived one: the least score first, then the lower first slot, then the lower second.
// Stays: three numbers, in the order in which pairs compare; a tuple would have this order and no names.
#[derive(Clone, Copy, Debug, PartialEq, Eq, PartialOrd, Ord)]
pub struct Score {
    /// 2^merged - 2^left - 2^right, raised by 2^41 so that it is never below 0
    pub raised: u64,
    /// the slot of the table that goes on the left
    pub first: usize,
    /// the slot of the table that goes on the right
    pub second: usize,
}

impl Score {
    /// Does the pair come before the other.
    #[inline]
    // Stays: the derived order is used; this one line carries the law that relates it to the keys.
    pub fn is_before(self, other: Score) -> bool
        ensures { (k h : Key) → Scores k self → Scores h other → result ≡ key_before k h }
    {
        self < other
    }
}
