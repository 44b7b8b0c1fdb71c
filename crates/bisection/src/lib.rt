#![tactic(auto)]
// Recursive bisection: the leaves are halved, each half is halved again, and small ends are left to greedy.
ghost use Rattle.std.specs.Prelude.{List, ℕ, ◌≡◌, ◌+◌, ◌≤◌, length};
ghost use Rattle.spec.specs.Network.{Network as Net};
ghost use Rattle.spec.specs.Tree.{Pair};
ghost use Rattle.spec.specs.Draws.{lent_words};
ghost use Rattle.spec.specs.Calls.{bisection_words, bisection_call, bisected_tree, workspace_after};
ghost use Rattle.network.specs.Record.{net_of};
ghost use Rattle.network.specs.Views.{net_in};
ghost use Rattle.greedynodes.specs.Begin.{Asks};
ghost use Rattle.bisect.specs.Cases.{Halves};
ghost use Rattle.bisection.specs.Named.{Named};
ghost use Rattle.bisection.specs.Whole.{Whole};
ghost use Rattle.bisection.specs.Answers.{taken_of, Answers};

use bisect::ends;
use draws::Draws;
use network::{Accepted, Network};
use spec::Refusal;

// Stays: `imbalance: usize, cutoff: usize`: the two numbers of the call in the C interface, which hands them apart.
// Stays: `tree: &mut [u16], ws: &mut [u64]`: the two lists of the call in the C interface, each with a length of its own.
// Stays: `ws: &mut [u64], network: &Accepted`: the one is written and the other read; a struct of both would be taken apart at each call below.

pub mod cuts; // cuts.rt: leaves halved by a partition
mod wipe; // wipe.rt: the stated words made 0

// Bisection of some leaves, onto the array of `count` nodes whose children stand at the front of `kids`: the new nodes' children are put after them. Returns the
// top. It falls with the number of leaves.
// Stays: the recursion lends the two halves of the leaves, and the rest as it came.
fn bisect_rec(
    leaves: &mut [u16],
    ws: &mut [u64],
    network: &Accepted,
    eps: f64,
    cutoff: usize,
    draws: &mut Draws,
    kids: &mut [u16],
    count: usize,
) -> Result<u16, Refusal>
    requires { (length leaves.old ≤ 128) × (count + length leaves.old ≤ 4096) × Named network.now.weights.now network.now.leg_counts.now network.now.legs.now leaves.old × (32768 ≤ length ws.old) }
    ensures { (N : Net) (a : List Pair) → Asks N a (length network.now.leg_counts.now) count network.now.weights.now network.now.leg_counts.now network.now.legs.now network.now.outputs.now leaves.old kids.old → Halves N eps cutoff a leaves.old draws.old kids.old kids.new result draws.new }
{
    let most = ends::small(cutoff);
    let all = leaves.len();
    if all <= most {
        return ends::small_end(ws, network, leaves, kids, count);
    }
    match cuts::cut_leaves(leaves, ws, network, eps, draws) {
        None => ends::unsplit_in(ws, network, leaves, draws, kids, count),
        Some(left) => {
            let first = bisect_rec(
                &mut leaves[..left],
                ws,
                network,
                eps,
                cutoff,
                draws,
                kids,
                count,
            )?;
            let second = bisect_rec(
                &mut leaves[left..],
                ws,
                network,
                eps,
                cutoff,
                draws,
                kids,
                count + (left - 1),
            );
            let n = network.leg_counts.len();
            ends::join_halves(n, kids, count + (all - 2), first, second)
        }
    }
}

// Stays: the list of children is written here; it is a tree once it is whole.
// Bisection of all leaves of a network, whose children are put at the front of `kids`.
fn bisect_all(
    ws: &mut [u64],
    network: &Accepted,
    imbalance: usize,
    cutoff: usize,
    draws: &mut Draws,
    kids: &mut [u16],
) -> Result<u16, Refusal>
    requires { (bisection_words ≤ length ws.old) × (imbalance ≤ 1000) }
    ensures { (words : List ℕ) → draws.old ≡ lent_words words → Whole (net_in network.now) imbalance cutoff words kids.old kids.new result draws.new }
{
    let mut numbers = [0u16; 128];
    let n = network.leg_counts.len();
    start::count_up(&mut numbers, n);
    let eps = ends::imbalance(imbalance);
    bisect_rec(&mut numbers[..n], ws, network, eps, cutoff, draws, kids, 0)
}

// The stated workspace, in words.
fn stated() -> usize
    ensures { result ≡ bisection_words }
{
    32768
}

// Bisection's call on an accepted network.
// Stays: the list of children is written here; it is a tree once it is whole.
fn plan_accepted(
    network: &Accepted,
    imbalance: usize,
    cutoff: usize,
    draws: &[u64],
    tree: &mut [u16],
    ws: &mut [u64],
) -> Result<usize, Refusal>
    requires { imbalance ≤ 1000 }
    ensures { Answers (net_in network.now) imbalance cutoff draws.now tree.old tree.new ws.old ws.new result }
{
    let words = stated();
    if ws.len() < words {
        return Err(Refusal::ShortBuffer);
    }
    let places = network.leg_counts.len().saturating_sub(1) * 2;
    if tree.len() < places {
        return Err(Refusal::ShortBuffer);
    }
    let mut kids = [0u16; 256];
    let mut run = Draws::new(draws);
    let built = bisect_all(
        &mut ws[..words],
        network,
        imbalance,
        cutoff,
        &mut run,
        &mut kids,
    );
    wipe::wipe(ws, words);
    let top = built?;
    cells::copy(tree, &kids, places);
    Ok(draws.len().saturating_sub(run.left()))
}

/// The plan of a network by bisection, with an imbalance in thousandths: its children, two places a node, to the front of `tree`. The words of `draws` stand for a
/// random generator. Answers how many of them were taken. After a refusal of the network, of the imbalance or of a length all is as it was; after any other
/// answer the stated words are 0.
// Stays: the list of children is written here, and the C interface lends it.
pub fn plan(
    network: &Network,
    imbalance: usize,
    cutoff: usize,
    draws: &[u64],
    tree: &mut [u16],
    ws: &mut [u64],
) -> Result<usize, Refusal>
    ensures answer { result ≡ taken_of (bisection_call (net_of network.now) imbalance cutoff draws.now (length ws.old) (length tree.old)) }
    ensures plan { tree.new ≡ bisected_tree (bisection_call (net_of network.now) imbalance cutoff draws.now (length ws.old) (length tree.old)) tree.old }
    ensures workspace { ws.new ≡ workspace_after bisection_words (bisection_call (net_of network.now) imbalance cutoff draws.now (length ws.old) (length tree.old)) ws.old }
{
    if 1000 < imbalance {
        return Err(Refusal::TooLarge);
    }
    let lists = network.accepted()?;
    plan_accepted(&lists, imbalance, cutoff, draws, tree, ws)
}
