// Greedy's lists in one value.
ghost use Rattle.std.specs.Prelude.{◌≡◌, length};

use crate::row::Row;
use arrayvec::ArrayVec;

/// Greedy's lists beside the sets, which lie in lent words: all by slot but the list of live slots. A table keeps its slot, and each new table
/// takes the next one.
// Stays: the rows are written while the sizes and the live slots are read, and the definitions are on lists apart; one list of records would be lent whole.
#[derive(Drop)]
pub struct Tables {
    /// the numbers of the tables' nodes
    pub nodes: [u16; 256],
    /// the size bits of the tables
    pub sizes: [usize; 256],
    /// the slots of the live tables, rising
    pub live: ArrayVec<u16, 256>,
    /// the least pairs
    pub rows: [Row; 256],
    ghost slots: { length rows ≡ 256 },
}
