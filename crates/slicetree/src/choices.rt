// Slicing on lent lists with improvement: one pass follows each choice.
ghost use Rattle.std.specs.Prelude.{false, ◌≡◌, ◌≤◌, length};
ghost use Rattle.spec.specs.Network.{leaf_count, index_count};
ghost use Rattle.spec.specs.Calls.{dangling, flag_at, slice_words};
ghost use Rattle.network.specs.Views.{net_in};
ghost use Rattle.slicetree.specs.Once.{Once};
ghost use Rattle.slicetree.specs.Choices.{Stands, Taken, ChoicesMade};

// Stays: `6144 ≤ length words.old`, `dangling (net_in network.now) ≡ false`: of the words and the network that callers lend; a struct of the two would be made for this one loop.
// Stays: `Stands (net_in network.now) (leaf_count (net_in network.now)) kids.old flags.old`: of tree and flags, which each turn writes, so that it is proved anew after each.

use network::Accepted;
use pricing::list::PriceList;
use reconf::{Search, Task, Visited};
use walk::Tree;

// One pass at k = 8 with the limit that the widest table or the target sets.
// Stays: no heap: the three lists of a price list are local arrays here, and lent on.
fn improve_once(
    network: &Accepted,
    kids: &mut [u16],
    flags: &[u8],
    target: u16,
    words: &mut [u64],
) -> Visited
    requires words { 6144 ≤ length words.old }
    requires closed { dangling (net_in network.now) ≡ false }
    requires stands { Stands (net_in network.now) (leaf_count (net_in network.now)) kids.old flags.now }
    ensures { Once (net_in network.now) (leaf_count (net_in network.now)) target (flag_at flags.now) kids.old kids.new result.rebuilt result.tried }
{
    let mut sets = [0u64; 1020];
    let mut sizes = [0u16; 255];
    let mut works = [0u16; 255];
    let mut list = PriceList {
        sets: &mut sets,
        sizes: &mut sizes,
        works: &mut works,
    };
    reprice::price(words, &mut list, kids, network, flags);
    let n = network.leaf_count();
    let widest = list.widest(n + n.saturating_sub(1));
    let search = Search {
        flags,
        k: 8,
        limit: Some(slicing::limit(widest, target)),
    };
    let task = Task {
        network: *network,
        search,
    };
    passes::improve(words, &mut list, kids, &task, 1)
}

// A turn on the tree as it stands: flags one index more, unless slicing is done, and improves the tree; what the pass did.
// Stays: the tree is written here; the C interface lends it as a flat list, two children a node.
fn turn(
    network: &Accepted,
    kids: &mut [u16],
    flags: &mut [u8],
    target: u16,
    words: &mut [u64],
) -> Option<Visited>
    requires words { 6144 ≤ length words.old }
    requires closed { dangling (net_in network.now) ≡ false }
    requires stands { Stands (net_in network.now) (leaf_count (net_in network.now)) kids.old flags.old }
    ensures { Taken (net_in network.now) (leaf_count (net_in network.now)) target kids.old flags.old kids.new flags.new result }
{
    let mut order = [0u16; 128];
    let tree = Tree {
        kids,
        leaves: network.leaf_count(),
    };
    let c = tree.post_order(words, &mut order);
    if !slicing::turn(words, flags, network, &tree, &order[..c], target) {
        return None;
    }
    Some(improve_once(network, kids, flags, target, words))
}

/// Slices the tree, improved after each choice; the counts are summed over all passes.
// Stays: at most a turn an index, over no list; the turn that flags nothing ends it.
pub fn slice(
    network: &Accepted,
    kids: &mut [u16],
    flags: &mut [u8],
    target: u16,
    words: &mut [u64],
) -> Visited
    requires words { 6144 ≤ length words.old }
    requires closed { dangling (net_in network.now) ≡ false }
    requires stands { Stands (net_in network.now) (leaf_count (net_in network.now)) kids.old flags.old }
    ensures { ChoicesMade (net_in network.now) (leaf_count (net_in network.now)) target kids.old flags.old (index_count (net_in network.now)) kids.new flags.new result.rebuilt result.tried }
{
    let mut rebuilt: u64 = 0;
    let mut tried: u64 = 0;
    for _ in 0..network.weights.len() {
        let Some(pass) = turn(network, kids, flags, target, words) else {
            return Visited { rebuilt, tried };
        };
        rebuilt += pass.rebuilt;
        tried += pass.tried;
    }
    Visited { rebuilt, tried }
}
