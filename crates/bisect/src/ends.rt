// Parts of bisection that call no partition: the imbalance, small ends, the node over two halves.
ghost use Rattle.std.specs.Prelude.{List, ◌≡◌, ◌+◌, ◌<◌, ◌≤◌, length, max};
ghost use Rattle.spec.specs.Network.{Network as Net};
ghost use Rattle.spec.specs.Tree.{Pair};
ghost use Rattle.spec.specs.Bisection.{imbalance};
ghost use Rattle.slots.specs.Weigh.{Light};
ghost use Rattle.greedynodes.specs.Begin.{Room, Asks};
ghost use Rattle.bisect.specs.Cases.{Small, Unsplit, Joins};

use draws::Draws;
use network::Accepted;
use spec::Refusal;

/// The imbalance, given in thousandths: at least 0.001 and at most 0.9.
pub fn imbalance(i: usize) -> f64
    requires { i ≤ 1000 }
    ensures { result ≡ imbalance i }
{
    // Stays: no `From` goes from `usize` to `f64`.
    let x = (i as f64) / 1000.0;
    if x < 0.001 {
        return 0.001;
    }
    if 0.9 < x {
        return 0.9;
    }
    x
}

/// The most leaves of a small end.
pub fn small(cutoff: usize) -> usize
    ensures { result ≡ max cutoff 2 }
{
    cutoff.max(2)
}

/// Greedy over the leaves of a small end, onto the array of `count` nodes. Returns the top of what is built.
// Stays: `count` is how many nodes the array has so far, and `kids` is longer.
pub fn small_end(
    ws: &mut [u64],
    network: &Accepted,
    leaves: &[u16],
    kids: &mut [u16],
    count: usize,
) -> Result<u16, Refusal>
    requires { (1036 ≤ length ws.old) × (length leaves.now ≤ 128) × (count < 8192) }
    ensures { (N : Net) (a : List Pair) → Asks N a (length network.now.leg_counts.now) count network.now.weights.now network.now.leg_counts.now network.now.legs.now network.now.outputs.now leaves.now kids.old → Small N a leaves.now kids.old kids.new result }
{
    greedynodes::plan_leaves(ws, network, leaves, kids, count)
}

/// Greedy over leaves that were to be halved and are not, of a network of `n` leaves whose lists are lent: refused where a draw was due past the end of the words.
// Stays: asks no more of its callers than lists that fit.
pub fn unsplit(
    ws: &mut [u64],
    weights: &[u8],
    n: usize,
    leg_counts: &[u8],
    legs: &[u16],
    outputs: &[u16],
    leaves: &[u16],
    draws: &Draws,
    kids: &mut [u16],
    count: usize,
) -> Result<u16, Refusal>
    requires room { Room n count weights.now outputs.now leaves.now ws.old }
    requires light { Light weights.now }
    ensures { (N : Net) (a : List Pair) → Asks N a n count weights.now leg_counts.now legs.now outputs.now leaves.now kids.old → Unsplit N a leaves.now draws.now kids.old kids.new result }
{
    if draws.is_exhausted() {
        return Err(Refusal::DrawsExhausted);
    }
    greedynodes::greedy_nodes(
        ws, weights, n, leg_counts, legs, outputs, leaves, kids, count,
    )
}

/// The same over an accepted network's leaves.
// Stays: `count` is how many nodes the array has so far, and `kids` is longer.
pub fn unsplit_in(
    ws: &mut [u64],
    network: &Accepted,
    leaves: &[u16],
    draws: &Draws,
    kids: &mut [u16],
    count: usize,
) -> Result<u16, Refusal>
    requires { (1036 ≤ length ws.old) × (length leaves.now ≤ 128) × (count < 8192) }
    ensures { (N : Net) (a : List Pair) → Asks N a (length network.now.leg_counts.now) count network.now.weights.now network.now.leg_counts.now network.now.legs.now network.now.outputs.now leaves.now kids.old → Unsplit N a leaves.now draws.now kids.old kids.new result }
{
    // So many words hold the slots of four words each, as `plan_leaves` lends them too.
    unsplit(
        &mut ws[..1036],
        network.weights,
        network.leg_counts.len(),
        network.leg_counts,
        network.legs,
        network.outputs,
        leaves,
        draws,
        kids,
        count,
    )
}

/// The node over the tops of two halves, at place `count` of the array of a tree of `n` leaves. Returns its number; a refusal of the right half is handed on.
// Stays: `count` is how many nodes the array has so far, and `kids` is longer.
pub fn join_halves(
    n: usize,
    kids: &mut [u16],
    count: usize,
    left: u16,
    right: Result<u16, Refusal>,
) -> Result<u16, Refusal>
    requires { (n ≤ 256) × (count ≤ 4096) }
    ensures { Joins n kids.old kids.new count left right result }
{
    let top = right?;
    merging::put_node(kids, count, left, top);
    // Stays: the number fits by what is known here; `try_from` would add a failure that never comes.
    Ok((n + count) as u16)
}
