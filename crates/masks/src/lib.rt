#![tactic(auto)]
//! The index sets of masks of members, as rows of lent words: mask `s` has the members whose digits are set in `s`.
ghost use Rattle.std.specs.Prelude.{[], ◌&&◌, ◌||◌, ◌≡◌, ℕ, ◌+◌, ◌*◌, ◌^◌, ◌<◌, ◌≤◌, length, take, drop};
ghost use Rattle.slots.specs.Weigh.{Light, weighed};
ghost use Rattle.masks.specs.Rows.{row_has, in_either};
ghost use Rattle.masks.specs.Tables.{United, KeptBelow};

mod planes; // planes.rt: the weights' binary digits as words, by which rows are weighed
mod tables; // tables.rt: the tables of the masks, once they are weighed

pub use planes::Planes;
use slots::mix::{Both, Either, WordOp};
pub use tables::Tables;

/// What a search over members knows of each mask of them: a place a mask in each list.
// Stays: the lists are parts of one piece of lent words, each split off where the one before it ends.
#[derive(Drop)]
pub struct Masks<'a> {
    /// what the mask's members list together; for the mask of none, what the region's root lists
    pub united: &'a mut [[u64; 2]],
    /// the indices of the mask's table
    pub kept: &'a mut [[u64; 2]],
    /// how many bits that table has
    pub bits: &'a mut [u64],
    /// the least cost of a tree over the mask's members, 2^53 where none is below that
    pub cost: &'a mut [u64],
    /// the part of the first split of that cost, 0 where the mask is not split
    pub part: &'a mut [u64],
}

// What the operation makes of two rows.
// Stays: a row is two words, written out; a loop or a zip over two is no plainer.
fn combine<O: WordOp>(a: [u64; 2], b: [u64; 2]) -> [u64; 2]
    ensures { (j : ℕ) → j < 128 → row_has result j ≡ O.on_members (row_has a j) (row_has b j) }
{
    [O::apply(a[0], b[0]), O::apply(a[1], b[1])]
}

/// The summed weights of the indices of either row, where the digits of the weights are not at hand.
// Stays: the weights are lent as a list; `Planes::weigh` asks nothing of them, as its value holds what they are.
pub fn weigh(a: [u64; 2], b: [u64; 2], weights: &[u8]) -> u64
    requires { (128 ≤ length weights.now) × Light weights.now }
    ensures { (result ≡ weighed weights.now [] (in_either a b) 128) × (result ≤ 1024) }
{
    Planes::of(weights).weigh(a, b)
}

/// Unites the members' sets of each mask, from the lowest mask up. Those of the masks of one member stand there already.
// Stays: s is a mask, and rows before it are read: no iterator lends these beside the row that is written.
pub fn unions(united: &mut [[u64; 2]])
    requires { (1 ≤ length united.old) × (length united.old ≤ 4096) }
    ensures { United united.old united.new (length united.old) (length united.old) }
{
    for s in 1..united.len() {
        let rest = s & (s - 1);
        if rest != 0 {
            united[s] = combine::<Either>(united[rest], united[s - rest]);
        }
    }
}

/// What each mask keeps, and its bits: of its members' indices those that the region's root or a member outside lists. They stand in the first
/// places of the two lists, one a mask; what lies past these stays.
// Stays: the weights are lent as a list; `keep_sets_by` takes `Planes`, which hold what is asked of them.
pub fn keep_sets(united: &[[u64; 2]], weights: &[u8], kept: &mut [[u64; 2]], bits: &mut [u64])
    requires room { (length united.now ≤ 4096) × (length united.now ≤ length kept.old) × (length united.now ≤ length bits.old) }
    requires weights { (128 ≤ length weights.now) × Light weights.now }
    ensures masks { KeptBelow united.now weights.now (take (length united.now) kept.new) (take (length united.now) bits.new) (length united.now) (length united.now) }
    ensures rest { (drop (length united.now) kept.new ≡ drop (length united.now) kept.old) × (drop (length united.now) bits.new ≡ drop (length united.now) bits.old) }
{
    let n = united.len();
    keep_sets_by(united, &Planes::of(weights), &mut kept[..n], &mut bits[..n]);
}

/// The same, where the digits of the weights are at hand, of two lists that have a place a mask.
// Stays: s is a mask, and rows on both sides of it are read, so that its number is needed beside its rows.
pub fn keep_sets_by(united: &[[u64; 2]], planes: &Planes, kept: &mut [[u64; 2]], bits: &mut [u64])
    requires { (length united.now ≤ 4096) × (length kept.old ≡ length united.now) × (length bits.old ≡ length united.now) }
    ensures { KeptBelow united.now planes.now.weights.now kept.new bits.new (length united.now) (length united.now) }
{
    let n = united.len();
    for s in 1..n {
        let outside = combine::<Either>(united[0], united[n - 1 - s]);
        let row = combine::<Both>(united[s], outside);
        kept[s] = row;
        bits[s] = planes.weigh(row, row);
    }
}
