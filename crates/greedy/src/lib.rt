#![tactic(auto)]
//! The greedy plan of a network.
ghost use Rattle.std.specs.Prelude.{◌≡◌, ◌≤◌, length};
ghost use Rattle.spec.specs.Calls.{plain_words, greedy_call, greedy_tree, workspace_after};
ghost use Rattle.network.specs.Record.{net_of};
ghost use Rattle.network.specs.Views.{net_in};
ghost use Rattle.greedy.specs.Whole.{Grown};
ghost use Rattle.greedy.specs.Answers.{done_of, Answers};

use network::{Accepted, Network};
use spec::Refusal;

/// Greedy over all leaves of a network, whose children are put to the front of `tree`, which stays as it was where a scored pair is too wide.
// Stays: the C interface lends the tree as a flat list, and the workspace beside it.
fn plan_all(network: &Accepted, tree: &mut [u16], words: &mut [u64]) -> Result<(), Refusal>
    requires { 1036 ≤ length words.old }
    ensures { Grown (net_in network.now) tree.old tree.new result }
{
    let n = network.leaf_count();
    let mut leaves = [0u16; 128];
    start::count_up(&mut leaves, n);
    greedynodes::plan_leaves(words, network, &leaves[..n], tree, 0)?;
    Ok(())
}

/// Greedy's call on an accepted network.
// Stays: the C interface lends the tree as a flat list, and the workspace beside it.
fn plan_in(network: &Accepted, tree: &mut [u16], ws: &mut [u64]) -> Result<(), Refusal>
    ensures { Answers (net_in network.now) tree.old tree.new ws.old ws.new result }
{
    let words = walk::stated();
    if ws.len() < words {
        return Err(Refusal::ShortBuffer);
    }
    let n = network.leaf_count();
    if tree.len() < n.saturating_sub(1) * 2 {
        return Err(Refusal::ShortBuffer);
    }
    let answer = plan_all(network, tree, &mut ws[..words]);
    cells::clear(ws, words);
    answer
}

/// The greedy plan of a network: its children, two places a node, to the front of `tree`. Refused are a network that the check refuses, a list that
/// is too short, and a scored pair that is too wide. `ws` is the workspace, of 4,096 words: 0 after a plan and where a pair is too wide, and else
/// as they were.
// Stays: the C interface lends the tree as a flat list, and the workspace beside it.
pub fn plan(network: &Network, tree: &mut [u16], ws: &mut [u64]) -> Result<(), Refusal>
    ensures answer { result ≡ done_of (greedy_call (net_of network.now) (length ws.old) (length tree.old)) }
    ensures plan { tree.new ≡ greedy_tree (greedy_call (net_of network.now) (length ws.old) (length tree.old)) tree.old }
    ensures workspace { ws.new ≡ workspace_after plain_words (greedy_call (net_of network.now) (length ws.old) (length tree.old)) ws.old }
{
    let network = network.accepted()?;
    plan_in(&network, tree, ws)
}
