#![tactic(auto)]
//! Improvement of a network's tree, as an entry that asks nothing of its caller.
ghost use Rattle.std.specs.Prelude.{false, ◌≡◌, ◌+◌, ◌-◌, ◌*◌, ◌^◌, ◌<◌, ◌≤◌, length};
ghost use Rattle.spec.specs.Network.{leaf_count};
ghost use Rattle.spec.specs.Price.{up_to};
ghost use Rattle.spec.specs.Calls.{wrong_tree, is_beyond};
ghost use Rattle.spec.specs.Improve.{clamped};
ghost use Rattle.network.specs.Record.{net_of};
ghost use Rattle.network.specs.Views.{net_in};
ghost use Rattle.pricing.specs.Sums.{work_sum};
ghost use Rattle.reconfigure.specs.Answers.{rest_call, last_call, Follows, Improving};

// Stays: `tree: &mut [u16], ws: &mut [u64]`, `kids: &mut [u16], ws: &mut [u64]`: what each entry is handed by its caller, of several owners; a struct would be filled for one call.
// Stays: `most ≤ 255`: a bound of a number, so that the counts of all passes fit a word; a type of its own would be unwrapped at each use.

pub mod dangling; // dangling.rt: indices that just one leaf names

use network::{Accepted, Network};
use pricing::list::PriceList;
use reconf::{Search, Task, Visited};
use spec::{Refusal, Total};

/// What improvement is asked for.
#[derive(Clone, Copy)]
pub struct Ask<'a> {
    /// the sliced indices, by a byte that is 1
    pub flags: &'a [u8],
    /// the most members of a region; 3 where it is less, 12 where it is more
    pub k: usize,
    /// the most passes, at most 255
    pub passes: usize,
    /// the most size bits of a table that a search makes, but for its region's own
    pub limit: Option<u16>,
}

// At least 3 and at most 12.
fn clamp(k: usize) -> usize
    ensures { (result ≡ clamped k) × (3 ≤ result) × (result ≤ 12) }
{
    k.min(12).max(3)
}

// The stated workspace in words, for a `k` that is clamped.
fn stated(k: usize) -> usize
    requires { k ≤ 12 }
    ensures { result ≡ 4096 + 8 * 2 ^ k }
{
    4096 + 8 * subset::mask_count(k)
}

/// Is the total of a tree of `n` leaves, whose nodes' work bits are at hand, beyond.
// Stays: `n` is the number of the tree's leaves, no list's length.
pub fn is_beyond(works: &[u16], n: usize) -> bool
    requires { n + (n - 1) ≤ length works.now }
    ensures { result ≡ is_beyond (up_to (work_sum works.now n (n - 1))) }
{
    match pricing::total_of(works, n, n.saturating_sub(1)) {
        Total::Exact(x) => false,
        Total::Beyond => true,
    }
}

// The same of a price list.
fn is_total_beyond(list: &PriceList, n: usize) -> bool
    requires { n + (n - 1) ≤ length list.now.works.now }
    ensures { result ≡ is_beyond (up_to (work_sum list.now.works.now n (n - 1))) }
{
    is_beyond(list.works, n)
}

// The answer where the tree is valid and the flags are right.
// Stays: no heap: the three lists of a price list are local arrays here, and lent on.
fn improve_valid(
    task: &Task,
    most: usize,
    kids: &mut [u16],
    ws: &mut [u64],
) -> Result<Visited, Refusal>
    requires words { 4096 + 8 * 2 ^ task.now.search.k ≤ length ws.old }
    requires most { most ≤ 255 }
    requires right { wrong_tree (leaf_count (net_in task.now.network)) kids.old ≡ false }
    ensures { Follows (last_call (net_in task.now.network) task.now.search.k most task.now.search.limit task.now.search.flags.now kids.old) kids.old kids.new result }
{
    let mut sets = [0u64; 1020];
    let mut sizes = [0u16; 255];
    let mut works = [0u16; 255];
    let mut list = PriceList {
        sets: &mut sets,
        sizes: &mut sizes,
        works: &mut works,
    };
    reprice::price(ws, &mut list, kids, &task.network, task.search.flags);
    if is_total_beyond(&list, task.network.leaf_count()) {
        return Err(Refusal::TotalBeyond);
    }
    if dangling::is_dangling(&task.network) {
        return Err(Refusal::DanglingIndex);
    }
    Ok(passes::improve(ws, &mut list, kids, task, most))
}

// The answer where the workspace is long enough. On a refusal only `ws` is written.
// Stays: the tree is checked and written here; the C interface lends it as a flat list, two children a node.
fn improve_tree(
    task: &Task,
    most: usize,
    kids: &mut [u16],
    ws: &mut [u64],
) -> Result<Visited, Refusal>
    requires words { 4096 + 8 * 2 ^ task.now.search.k ≤ length ws.old }
    requires most { most ≤ 255 }
    ensures { Follows (rest_call (net_in task.now.network) task.now.search.k most task.now.search.limit task.now.search.flags.now kids.old) kids.old kids.new result }
{
    if !walk::is_tree(kids, task.network.leaf_count(), ws) {
        return Err(Refusal::InvalidTree);
    }
    if cost::wrong_flags(task.network.index_count(), task.search.flags) {
        return Err(Refusal::InvalidFlags);
    }
    improve_valid(task, most, kids, ws)
}

/// Improves the tree of an accepted network where it stands. Refusals, in this order: `ShortBuffer`, `InvalidTree`, `InvalidFlags`, `TotalBeyond`,
/// `DanglingIndex`.
// Stays: `_of` an accepted network, as `improve` is of any; it writes the tree where it stands.
pub fn improve_of(
    network: &Accepted,
    ask: &Ask,
    tree: &mut [u16],
    ws: &mut [u64],
) -> Result<Visited, Refusal>
    requires { ask.now.passes ≤ 255 }
    ensures { Improving (net_in network.now) ask.now.k ask.now.passes ask.now.limit ask.now.flags.now tree.old ws.old tree.new ws.new result }
{
    let k = clamp(ask.k);
    let words = stated(k);
    if ws.len() < words {
        return Err(Refusal::ShortBuffer);
    }
    let search = Search {
        flags: ask.flags,
        k,
        limit: ask.limit,
    };
    let task = Task {
        network: *network,
        search,
    };
    let answer = improve_tree(&task, ask.passes, tree, &mut ws[..words]);
    cells::clear(ws, words);
    answer
}

/// Improves the tree of a network where it stands: passes over its nodes, each node's region rebuilt where a cheaper tree over its members is found,
/// until a pass rebuilds nothing. The answer has how many rebuilds there were and how many splits were tried. More than 255 passes are `TooLarge`; then
/// the network's own refusals come, then those of `improve_of`. On a refusal the tree is unchanged.
// Stays: the tree is checked and written here; the C interface lends it as a flat list, two children a node.
pub fn improve(
    network: &Network,
    ask: &Ask,
    tree: &mut [u16],
    ws: &mut [u64],
) -> Result<Visited, Refusal>
    ensures { Improving (net_of network.now) ask.now.k ask.now.passes ask.now.limit ask.now.flags.now tree.old ws.old tree.new ws.new result }
{
    if 255 < ask.passes {
        return Err(Refusal::TooLarge);
    }
    let accepted = network.accepted()?;
    improve_of(&accepted, ask, tree, ws)
}
