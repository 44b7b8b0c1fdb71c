#![tactic(auto)]
//! Slicing of a network's tree to a target, with improvement or without.
ghost use Rattle.std.specs.Prelude.{◌≡◌, true, false, ◌+◌, ◌≤◌, length};
ghost use Rattle.spec.specs.Network.{leaf_count, index_count};
ghost use Rattle.spec.specs.Tree.{pairs_of};
ghost use Rattle.spec.specs.Calls.{plain_words, slice_words, wrong_tree, total_is_beyond, dangling, slice_call, sliced_tree, sliced_flags, workspace_after};
ghost use Rattle.network.specs.Record.{net_of};
ghost use Rattle.network.specs.Views.{net_in};
ghost use Rattle.slicetree.specs.Choices.{Stands};
ghost use Rattle.slicetree.specs.Answers.{counts, check_call, SlicedBy, Answered, Slices};

mod choices; // choices.rt: slicing on lent lists, a pass of improvement after each choice

use network::{Accepted, Network};
use pricing::list::PriceList;
use reconf::Visited;
use spec::Refusal;
use walk::Tree;

// The stated workspace, in words.
// Stays: the C interface asks with a flag whether slicing is to improve.
fn stated(improving: bool) -> usize
    ensures { result ≡ slice_words improving }
{
    if improving { 6144 } else { 4096 }
}

// Is the tree's unsliced total beyond.
// Stays: no heap: the three lists of a price list are local arrays here, filled once and lent on.
fn is_beyond(network: &Accepted, kids: &[u16], words: &mut [u64]) -> bool
    requires right { wrong_tree (leaf_count (net_in network.now)) kids.now ≡ false }
    requires words { plain_words ≤ length words.old }
    ensures { result ≡ total_is_beyond (net_in network.now) (λ j. false) (pairs_of kids.now) }
{
    let mut sets = [0u64; 1020];
    let mut sizes = [0u16; 255];
    let mut works = [0u16; 255];
    let mut list = PriceList {
        sets: &mut sets,
        sizes: &mut sizes,
        works: &mut works,
    };
    reprice::price(words, &mut list, kids, network, &[]);
    reconfigure::is_beyond(list.works, network.leaf_count())
}

// Refuses what is no tree of the network, a tree whose unsliced total is beyond, and with improvement a dangling index.
// Stays: the C interface asks with a flag whether slicing is to improve.
fn check(
    network: &Accepted,
    improving: bool,
    kids: &[u16],
    words: &mut [u64],
) -> Result<(), Refusal>
    requires words { plain_words ≤ length words.old }
    ensures { result ≡ check_call (net_in network.now) improving kids.now }
{
    let tree = Tree::check(kids, network.leaf_count(), words)?;
    if is_beyond(network, tree.kids, words) {
        return Err(Refusal::TotalBeyond);
    }
    if !improving {
        return Ok(());
    }
    if reconfigure::dangling::is_dangling(network) {
        return Err(Refusal::DanglingIndex);
    }
    Ok(())
}

// Slices a tree that no check refuses: as it is, or improved after each choice.
// Stays: the C interface asks with a flag whether slicing is to improve.
fn slice_with(
    network: &Accepted,
    improving: bool,
    kids: &mut [u16],
    flags: &mut [u8],
    target: u16,
    words: &mut [u64],
) -> Visited
    requires words { slice_words improving ≤ length words.old }
    requires closed { improving ≡ true → dangling (net_in network.now) ≡ false }
    requires stands { Stands (net_in network.now) (leaf_count (net_in network.now)) kids.old flags.old }
    ensures { SlicedBy (net_in network.now) improving target kids.old flags.old kids.new flags.new result }
{
    if improving {
        return choices::slice(network, kids, flags, target, words);
    }
    let mut order = [0u16; 128];
    let tree = Tree {
        kids,
        leaves: network.leaf_count(),
    };
    let c = tree.post_order(words, &mut order);
    slicing::slice(words, flags, network, &tree, &order[..c], target);
    Visited {
        rebuilt: 0,
        tried: 0,
    }
}

// The answer where the lists are long enough. On a refusal only `words` is written.
// Stays: the tree is checked and written here; the C interface lends it as a flat list, two children a node.
fn slice_in(
    network: &Accepted,
    improving: bool,
    kids: &mut [u16],
    target: u16,
    flags: &mut [u8],
    words: &mut [u64],
) -> Result<Visited, Refusal>
    requires words { slice_words improving ≤ length words.old }
    ensures { Answered (net_in network.now) improving target kids.old flags.old kids.new flags.new result }
{
    check(network, improving, kids, words)?;
    let mut sliced = [0u8; 256];
    let made = slice_with(network, improving, kids, &mut sliced, target, words);
    cells::copy(flags, &sliced, network.weights.len());
    Ok(made)
}

/// Slices the tree of an accepted network, as `slice` does. Refusals, in this order: `ShortBuffer`, `InvalidTree`, `TotalBeyond`, and with
/// improvement `DanglingIndex`.
// Stays: `_of` an accepted network, as `slice` is of any; the tree is sliced where it stands.
pub fn slice_of(
    network: &Accepted,
    improving: bool,
    tree: &mut [u16],
    target: u16,
    flags: &mut [u8],
    ws: &mut [u64],
) -> Result<Visited, Refusal>
    ensures { Slices (net_in network.now) improving target tree.old flags.old ws.old tree.new flags.new ws.new result }
{
    let words = stated(improving);
    if ws.len() < words {
        return Err(Refusal::ShortBuffer);
    }
    if flags.len() < network.weights.len() {
        return Err(Refusal::ShortBuffer);
    }
    let answer = slice_in(network, improving, tree, target, flags, &mut ws[..words]);
    cells::clear(ws, words);
    answer
}

/// Slices the tree of a network until its widest table is within a target or no candidate is left: one flag an index, to the front of `flags`.
/// With improvement a pass over the tree, where it stands, follows each choice; without it the tree stays. The answer has how many subtrees were
/// rebuilt, and how many splits were tried. The network's own refusals come first, then those of `slice_of`.
// Stays: the tree is checked and written here; the C interface lends it as a flat list, two children a node.
pub fn slice(
    network: &Network,
    improving: bool,
    tree: &mut [u16],
    target: u16,
    flags: &mut [u8],
    ws: &mut [u64],
) -> Result<Visited, Refusal>
    ensures answer { result ≡ counts (slice_call (net_of network.now) improving target (length ws.old) (length flags.old) tree.old) }
    ensures tree { tree.new ≡ sliced_tree (slice_call (net_of network.now) improving target (length ws.old) (length flags.old) tree.old) tree.old }
    ensures sliced { flags.new ≡ sliced_flags (net_of network.now) (slice_call (net_of network.now) improving target (length ws.old) (length flags.old) tree.old) flags.old }
    ensures workspace { ws.new ≡ workspace_after (slice_words improving) (slice_call (net_of network.now) improving target (length ws.old) (length flags.old) tree.old) ws.old }
{
    let network = network.accepted()?;
    slice_of(&network, improving, tree, target, flags, ws)
}
