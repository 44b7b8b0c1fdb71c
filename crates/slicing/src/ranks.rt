// The index that is sliced next: of the candidates the one of least cost, then of the largest summed size of tables above the target that
// list it, then the lowest.
ghost use Rattle.std.specs.Prelude.{◌≡◌, cond, ℕ, ◌+◌, ◌-◌, ◌*◌, ◌^◌, ◌<◌, ◌≤◌, length, get_or};
ghost use Rattle.spec.specs.Lists.{memb};
ghost use Rattle.spec.specs.Slicing.{rank_before};
ghost use Rattle.slots.specs.Weigh.{Light, open_weight};
ghost use Rattle.slicing.specs.Best.{rank_from, considered, best_of, candidate_in, rank_in};
ghost use Rattle.slicing.specs.Promise.{RankableTree, ChosenOf};

use crate::tallies;
use network::Accepted;
use pricing::list::PriceList;
use std::cmp::Reverse;
use walk::Tree;

// Stays: three numbers of an index, whose derived order needs these fields in this order; no other type ranks by it.
/// What ranks an index. The derived order is that in which indices are sliced: the lower cost first, then the larger size, then the lower index.
#[derive(Clone, Copy, Debug, PartialEq, Eq, PartialOrd, Ord)]
pub struct Rank {
    /// the total over all settings once the index is sliced
    pub cost: u64,
    /// the summed size of the tables above the target that list the index
    pub touched_size: Reverse<u64>,
    pub index: usize,
}

impl Rank {
    /// Is the index rather sliced than the other.
    // Stays: the derived order, said in the words of the definition of slicing.
    #[inline]
    pub fn is_before(self, other: Rank) -> bool
        ensures { result ≡ rank_before (rank_from self) (rank_from other) }
    {
        self < other
    }
}

// What the indices are ranked by: lists by index, and the exact total.
// Stays: lists by index that are filled one after the other; a list of structs would be filled from them first.
#[derive(Clone, Copy)]
struct Merits<'a> {
    total: u64,
    // the weights, those of flagged indices and of outputs as 0
    sliceable: &'a [u8],
    // the work of the steps whose children list the index
    touching: &'a [u64],
    // the summed size of the tables above the target that list the index
    sizes: &'a [u64],
}

// Writes the network's weights to `sliceable`, those of flagged indices and of outputs as 0, and 0 after them.
// Stays: a `for` over the outputs; a chain with `for_each` would need a closure with a contract that lends `sliceable`.
fn sliceable_weights(sliceable: &mut [u8], network: &Accepted, flags: &[u8])
    requires { length network.now.weights.now ≤ length sliceable.old }
    ensures { (j : ℕ) → get_or sliceable.new j 0 ≡ cond (memb j network.now.outputs.now) 0 (open_weight network.now.weights.now flags.now j) }
{
    let weights = network.weights;
    nodebits::effective_weights(sliceable, weights.len(), weights, flags);
    for &output in network.outputs {
        cells::put(sliceable, usize::from(output), 0);
    }
}

// The total over all settings of an index of the given weight, once it is sliced: `touching` is the work of the steps whose children list it.
// Stays: the `cost` of a rank, by name; three numbers go in, and none of them is the value of another type.
fn cost_of(total: u64, touching: u64, weight: usize) -> u64
    requires { (touching ≤ total) × (total < 9007199254740992) × (weight ≤ 8) }
    ensures { result ≡ 2 ^ weight * (total - touching) + touching }
{
    (1 << weight) * (total - touching) + touching
}

impl<'a> Merits<'a> {
    // The best candidate so far, when index `j` is looked at too.
    fn consider(&self, best: Option<Rank>, j: usize) -> Option<Rank>
        requires { Light self.now.sliceable.now × (get_or self.now.touching.now j 0 ≤ self.now.total) × (self.now.total < 9007199254740992) }
        ensures { result ≡ considered (candidate_in self.now.sliceable.now self.now.sizes.now) (rank_in self.now.total self.now.sliceable.now self.now.touching.now self.now.sizes.now) best j }
    {
        let weight = usize::from(cells::get_or(self.sliceable, j, 0));
        let size = cells::get_or(self.sizes, j, 0);
        if weight == 0 {
            return best;
        }
        if size == 0 {
            return best;
        }
        let rank = Rank {
            cost: cost_of(self.total, cells::get_or(self.touching, j, 0), weight),
            touched_size: Reverse(size),
            index: j,
        };
        match best {
            None => Some(rank),
            Some(other) => {
                if rank.is_before(other) {
                    return Some(rank);
                }
                Some(other)
            }
        }
    }

    // The best candidate of the `m` indices.
    fn best(&self, m: usize) -> Option<Rank>
        requires { Light self.now.sliceable.now × ((j : ℕ) → get_or self.now.touching.now j 0 ≤ self.now.total) × (self.now.total < 9007199254740992) }
        ensures { result ≡ best_of (candidate_in self.now.sliceable.now self.now.sizes.now) (rank_in self.now.total self.now.sliceable.now self.now.touching.now self.now.sizes.now) m }
    {
        let mut best = None;
        // Stays: the number is the index that is ranked, and all three lists are read there, by total reads.
        for j in 0..m {
            best = self.consider(best, j);
        }
        best
    }
}

// The index that is sliced next, of a tree that is priced with sets of `w` words: `total` is its exact total.
// Stays: the flags are lent apart from the network, and the order is a list of the caller's; memory is fixed, so the lists by index are arrays here.
pub fn choose(
    list: &PriceList,
    w: usize,
    network: &Accepted,
    flags: &[u8],
    tree: &Tree,
    order: &[u16],
    total: u64,
    target: u16,
) -> Option<Rank>
    requires { RankableTree w list.now network.now tree.now order.now total }
    ensures { ChosenOf w list.now network.now flags.now tree.now order.now target result }
{
    let mut sliceable = [0u8; 1024];
    let mut touching = [0u64; 1024];
    let mut sizes = [0u64; 1024];
    sliceable_weights(&mut sliceable, network, flags);
    tallies::add_works(&mut touching, list, w, tree, order);
    let tables = tree.leaves + order.len();
    tallies::add_sizes(&mut sizes, list.sets, list.sizes, w, tables, target);
    let merits = Merits {
        total,
        sliceable: &sliceable,
        touching: &touching,
        sizes: &sizes,
    };
    merits.best(network.weights.len())
}
