#![tactic(auto)]
//! Slicing on lent lists: turn after turn one index more is flagged, until the widest table is within the target or no candidate is left.
ghost use Rattle.std.specs.Prelude.{◌≡◌, max, length};
ghost use Rattle.spec.specs.Network.{index_count};
ghost use Rattle.spec.specs.Slicing.{or_zero, within_target};
ghost use Rattle.network.specs.Views.{net_in};
ghost use Rattle.pricing.specs.Promise.{HasLeavesOf, IsOrderOf};
ghost use Rattle.slicing.specs.Turns.{with_flag, is_index, HasOutside, Within, Turned, Sliced};

pub mod fronts; // fronts.rt: slicing in lists of which the first places are in use
mod ranks; // ranks.rt: the index that is sliced next
mod tallies; // tallies.rt: sums by index over the steps and the tables of a tree

use network::Accepted;
use pricing::list::PriceList;
use ranks::Rank;
use walk::Tree;

// Is the widest table within the target. Without leaves there is none.
fn within(widest: Option<u16>, target: u16) -> bool
    ensures { result ≡ within_target target widest }
{
    widest.is_none_or(|w| w <= target)
}

/// The limit of improvement after a choice: the widest table, or the target where that is larger.
pub fn limit(widest: Option<u16>, target: u16) -> u16
    ensures { result ≡ max (or_zero widest) target }
{
    widest.unwrap_or(0).max(target)
}

// Flags the index, if there is one.
fn flag(flags: &mut [u8], best: Option<Rank>) -> bool
    ensures { (result ≡ is_index best) × (flags.new ≡ with_flag best flags.old) }
{
    match best {
        None => false,
        Some(rank) => {
            cells::put(flags, rank.index, 1);
            true
        }
    }
}

/// Prices the tree of an accepted network, and flags one index more, unless the widest table is within the target or no candidate is left. Was one
/// flagged.
// Stays: the words are worked in, the flags are written, and the order is a list of the caller's; memory is fixed, so the price list's lists are arrays here.
pub fn turn(
    outside: &mut [u64],
    flags: &mut [u8],
    network: &Accepted,
    tree: &Tree,
    order: &[u16],
    target: u16,
) -> bool
    requires leaves { HasLeavesOf network.now tree.now }
    requires order { IsOrderOf tree.now order.now }
    requires outside { HasOutside network.now outside.old }
    requires within { Within (net_in network.now) tree.now.kids.now flags.old }
    ensures { Turned (net_in network.now) target tree.now.kids.now flags.old flags.new result }
{
    let mut sets = [0u64; 1024];
    let mut sizes = [0u16; 256];
    let mut works = [0u16; 256];
    let mut list = PriceList {
        sets: &mut sets,
        sizes: &mut sizes,
        works: &mut works,
    };
    list.price::<256>(outside, 4, network, flags, tree, order);
    let (n, c) = (network.leg_counts.len(), order.len());
    if within(list.widest(n + c), target) {
        return false;
    }
    let total = cost::exact(list.total(n, c));
    let best = ranks::choose(&list, 4, network, flags, tree, order, total, target);
    flag(flags, best)
}

/// Slices the tree of an accepted network as it is, turn after turn.
// Stays: the words are worked in, the flags are written, and the order is a list of the caller's; at most a turn an index, over no list, and the turn that flags nothing ends it.
pub fn slice(
    outside: &mut [u64],
    flags: &mut [u8],
    network: &Accepted,
    tree: &Tree,
    order: &[u16],
    target: u16,
)
    requires leaves { HasLeavesOf network.now tree.now }
    requires order { IsOrderOf tree.now order.now }
    requires outside { HasOutside network.now outside.old }
    requires within { Within (net_in network.now) tree.now.kids.now flags.old }
    ensures { Sliced (net_in network.now) target tree.now.kids.now flags.old (index_count (net_in network.now)) flags.new }
{
    for _ in 0..network.weights.len() {
        if !turn(outside, flags, network, tree, order, target) {
            return;
        }
    }
}
