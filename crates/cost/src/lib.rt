#![tactic(auto)]
// Pricing of a network's tree, as an entry that asks nothing of its caller.
ghost use Rattle.std.specs.Prelude.{◌≡◌, ◌≤◌, length};
ghost use Rattle.spec.specs.Network.{leaf_count};
ghost use Rattle.spec.specs.Layout.{network_of};
ghost use Rattle.network.specs.Checks.{Fitting};
ghost use Rattle.network.specs.Record.{net_of};
ghost use Rattle.network.specs.Views.{net_in};
ghost use Rattle.pricing.specs.Lists.{IsSameLoan};
ghost use Rattle.cost.specs.Answers.{too_few, wrong_flags, rest_call, Answered, TreeCost};
ghost use Rattle.cost.specs.Back.{exact_of};
ghost use Rattle.cost.specs.Checks.{LongEnough};

// Stays: `n ≤ 512`: a bound of a number, so that its products fit a machine word; a type of its own would be unwrapped at each use.
// Stays: `IsSameLoan list.old list.new`: said of what a call hands back; a type says what holds of a value, not what a call left as it was.

use network::{Accepted, Network, scan};
use pricing::list::PriceList;
use spec::{Prices, Refusal, Total};
use walk::Tree;

/// The exact total, and 0 where it is beyond.
// Stays: the C interface writes 0 for a total that is beyond; a `From` would hide at each call that the total may be lost.
pub fn exact(total: Total) -> u64
    ensures { result ≡ exact_of total }
{
    match total {
        Total::Exact(x) => x,
        Total::Beyond => 0,
    }
}

// Is a lent list shorter than stated, for `n` leaves.
fn too_few(n: usize, words: usize, list: &PriceList, steps: usize) -> bool
    requires { n ≤ 512 }
    ensures { result ≡ too_few n words (length list.now.sets.now) (length list.now.sizes.now) (length list.now.works.now) steps }
{
    let inner = n.saturating_sub(1);
    let nodes = n + inner;
    if words < walk::stated() {
        return true;
    }
    if list.sets.len() < nodes * 4 {
        return true;
    }
    if list.sizes.len() < nodes {
        return true;
    }
    if list.works.len() < nodes {
        return true;
    }
    steps < inner * 5
}

/// Are there more flags than the `m` indices, or is a flag above 1.
pub fn wrong_flags(m: usize, flags: &[u8]) -> bool
    ensures { result ≡ wrong_flags m flags.now }
{
    if m < flags.len() {
        return true;
    }
    scan::above(flags, 1)
}

// The answer where the lists are long enough. On a refusal only `ws` is written.
// Stays: the C interface lends flags, tree, workspace, price list and listing apart, the tree as a flat list, the listing as numbers.
fn priced_in(
    network: &Accepted,
    flags: &[u8],
    kids: &[u16],
    ws: &mut [u64],
    list: &mut PriceList,
    steps: &mut [u16],
) -> Result<Prices, Refusal>
    requires { LongEnough (leaf_count (net_in network.now)) (length ws.old) (length list.old.sets.now) (length list.old.sizes.now) (length list.old.works.now) (length steps.old) }
    ensures lent { IsSameLoan list.old list.new }
    ensures answered { Answered (net_in network.now) flags.now kids.now (rest_call (net_in network.now) flags.now kids.now) list.old.sets.now list.old.sizes.now list.old.works.now steps.old list.new.sets.now list.new.sizes.now list.new.works.now steps.new result }
{
    let tree = Tree::check(kids, network.leaf_count(), ws)?;
    if wrong_flags(network.index_count(), flags) {
        return Err(Refusal::InvalidFlags);
    }
    let mut order = [0u16; 128];
    let c = tree.post_order(ws, &mut order);
    Ok(list.price_listed::<256>(ws, steps, 4, network, flags, &tree, &order[..c]))
}

/// Prices the tree `kids` of an accepted network with the given flags. Refusals, in this order: `ShortBuffer`, `InvalidTree`, `InvalidFlags`.
// Stays: the C interface lends flags, tree, workspace, price list and listing apart, the tree as a flat list, the listing as numbers.
pub fn price_accepted(
    network: &Accepted,
    flags: &[u8],
    kids: &[u16],
    ws: &mut [u64],
    list: &mut PriceList,
    steps: &mut [u16],
) -> Result<Prices, Refusal>
    ensures lent { IsSameLoan list.old list.new }
    ensures cost { TreeCost (net_in network.now) flags.now kids.now ws.old list.old.sets.now list.old.sizes.now list.old.works.now steps.old ws.new list.new.sets.now list.new.sizes.now list.new.works.now steps.new result }
{
    if too_few(network.leaf_count(), ws.len(), list, steps.len()) {
        return Err(Refusal::ShortBuffer);
    }
    let words = walk::stated();
    let answer = priced_in(network, flags, kids, &mut ws[..words], list, steps);
    cells::clear(ws, words);
    answer
}

/// Prices the tree `kids` of a network in lists of which the first places are in use, as many as `counts` says of weights, leaves and outputs.
/// The network's own refusals come first, then those of `price_accepted`.
// Stays: asks no more of its callers than lists that fit.
pub fn cost_of(
    counts: (usize, usize, usize),
    weights: &[u8],
    leg_counts: &[u8],
    legs: &[u16],
    outputs: &[u16],
    flags: &[u8],
    kids: &[u16],
    ws: &mut [u64],
    list: &mut PriceList,
    steps: &mut [u16],
) -> Result<Prices, Refusal>
    requires { Fitting counts.0 counts.1 counts.2 weights.now leg_counts.now legs.now outputs.now }
    ensures lent { IsSameLoan list.old list.new }
    ensures cost { TreeCost (network_of counts.0 counts.1 counts.2 weights.now leg_counts.now legs.now outputs.now) flags.now kids.now ws.old list.old.sets.now list.old.sizes.now list.old.works.now steps.old ws.new list.new.sets.now list.new.sizes.now list.new.works.now steps.new result }
{
    let network = Accepted::of_counts(counts, weights, leg_counts, legs, outputs)?;
    price_accepted(&network, flags, kids, ws, list, steps)
}

/// Prices the tree `kids` of a network with the given flags: each node's set, size bits and work bits in `list`, the listing in `steps`, five
/// numbers a step; the answer is total, widest and slice bits. The network's own refusals come first, then those of `price_accepted`.
// Stays: the C interface lends flags, tree, workspace, price list and listing apart, the tree as a flat list, the listing as numbers.
pub fn tree_cost(
    network: &Network,
    flags: &[u8],
    kids: &[u16],
    ws: &mut [u64],
    list: &mut PriceList,
    steps: &mut [u16],
) -> Result<Prices, Refusal>
    ensures lent { IsSameLoan list.old list.new }
    ensures cost { TreeCost (net_of network.now) flags.now kids.now ws.old list.old.sets.now list.old.sizes.now list.old.works.now steps.old ws.new list.new.sets.now list.new.sizes.now list.new.works.now steps.new result }
{
    let network = network.accepted()?;
    price_accepted(&network, flags, kids, ws, list, steps)
}
