// Marks in lists, and sums over all that was read.
ghost use Rattle.std.specs.Prelude.{◌<◌};

use network::Network;
use stored::sums::{with, with_all};

// Stays: other numbers, so that a node's mark is no byte's; the remainder keeps it below the cast's limit.
/// The mark of place i of a list of nodes: 50000 + i mod 1000.
pub(crate) fn wide_mark(i: usize) -> u16 {
    (50000 + i % 1000) as u16
}

// Stays: other numbers, so that a byte's mark is above each flag; the remainder keeps it below the cast's limit.
/// The mark of place i of a list of bytes: 100 + i mod 100.
pub(crate) fn mark(i: usize) -> u8 {
    (100 + i % 100) as u8
}

// Stays: std's fill_with hands its closure no place.
/// Puts the mark of its place at every place of a list.
pub(crate) fn fill<T: Drop, F: Fn(usize) -> T>(list: &mut [T], mark: F)
    requires { F.IsAlwaysCallable mark }
{
    for (i, place) in list.iter_mut().enumerate() {
        *place = mark(i);
    }
}

// Stays: a count may go past its leaf, and past the list, where the sum takes zeros.
// The sum with the count and the indices of leaf i, where a count may be any byte; past the end of the list an index is 0.
fn with_leaf(sum: u64, count: u8, legs: &[u16], i: usize) -> u64
    requires { i < 128 }
{
    let mut s = with(sum, u64::from(count));
    for k in 0..usize::from(count) {
        s = with(s, u64::from(cells::get_or(legs, 32 * i + k, 0)));
    }
    s
}

// Stays: a leaf's count and its indices lie in two lists of the record; std has no From of usize for u64.
/// The sum with a record: its counts, and its lists as far as they are counted.
pub(crate) fn record(sum: u64, network: &Network) -> u64 {
    let leaves = network.leaf_count;
    let indices = network.index_count;
    let outputs = network.output_count;
    let counts = with(
        with(with(sum, leaves as u64), indices as u64),
        outputs as u64,
    );
    let mut s = with_all(counts, &network.weights[..indices.min(256)]);
    for i in 0..leaves.min(128) {
        s = with_leaf(s, network.leg_counts[i], &network.legs, i);
    }
    with_all(s, &network.outputs[..outputs.min(32)])
}

// Stays: the lists are summed as they were lent, whether or not one holds a tree.
/// The sum over a record and two lists.
pub(crate) fn of(network: &Network, tree: &[u16], flags: &[u8]) -> u64 {
    with_all(with_all(record(0, network), tree), flags)
}
