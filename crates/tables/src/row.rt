// What is known of a table's least pair, in one word.
ghost use Rattle.std.specs.Prelude.{◌≡◌, ◌+◌, ◌*◌, ◌/◌, ◌%◌, ◌<◌, ◌≤◌, get_or};
ghost use Rattle.tables.specs.Lists.{code, coded};

use crate::PairTooWide;

/// What is known of a table's least pair with the live tables before it: its number is 512 times the size bits of the table that a merge of the
/// two makes, and the slot of the other table. No table has slot 256 to 259, so the rows without a pair have these numbers.
// Stays: tried as an enum, with a pair's slot and its bits: a row took three words, and greedy 1.0 to 1.2 of the time that it took at the beginning;
// with fewer bits there are numbers that a row could not have.
#[derive(Clone, Copy, Debug, PartialEq, Eq)]
pub struct Row {
    pub number: usize,
}

impl From<PairTooWide> for Row {
    ghost from_gives = { λ _ row. code row ≡ 257 };

    /// The row of a table that has a pair which is too wide.
    fn from(_: PairTooWide) -> Row {
        Row::TOO_WIDE
    }
}

impl Row {
    /// The table shares no index with one before it.
    pub const ALONE: Row = Row { number: 256 };

    /// A table of such a pair, or its merged table, has over 40 bits.
    pub const TOO_WIDE: Row = Row { number: 257 };

    /// It is yet to be found.
    pub const STALE: Row = Row { number: 258 };

    /// The table is gone.
    pub const GONE: Row = Row { number: 259 };

    /// The pair with the table in slot `other`, whose merged table has `bits` size bits.
    pub fn pair(other: usize, bits: usize) -> Row
        requires { (other < 1048576) × (bits < 1048576) }
        ensures { code result ≡ bits * 512 + other }
    {
        Row {
            number: bits * 512 + other,
        }
    }

    /// The row of a slot; past the end the one whose number is 0.
    pub fn at(rows: &[Row], slot: usize) -> Row
        ensures { code result ≡ get_or (coded rows.now) slot 0 }
    {
        cells::get_or(rows, slot, Row { number: 0 })
    }

    /// The slot of the other table; of a row without a pair one that is no table's.
    pub fn other(self) -> usize
        ensures { result ≡ code self % 512 }
    {
        self.number % 512
    }

    /// The size bits of the merged table; of a row without a pair 0.
    pub fn bits(self) -> usize
        ensures { result ≡ code self / 512 }
    {
        self.number / 512
    }
}
