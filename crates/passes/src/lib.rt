#![tactic(auto)]
//! Improvement of a valid tree: the nodes of a pass, by falling work, each visited once; passes until one rebuilds nothing.
ghost use Rattle.std.specs.Prelude.{false, ◌≡◌, ℕ, ◌+◌, ◌-◌, ◌<◌, ◌≤◌, length, get_or, take};
ghost use Rattle.spec.specs.Network.{leaf_count};
ghost use Rattle.spec.specs.Tree.{step_order};
ghost use Rattle.spec.specs.Calls.{flag_at, wrong_tree};
ghost use Rattle.network.specs.Views.{net_in};
ghost use Rattle.pricing.specs.Lists.{IsSameLoan};
ghost use Rattle.reprice.specs.Held.{Standing, IsAsLong};
ghost use Rattle.reconf.specs.Benches.{IsReady};
ghost use Rattle.passes.specs.Sorted.{sorted};
ghost use Rattle.passes.specs.Made.{VisitsAll, Passes, Improves};

// Stays: `kids: &mut [u16], task: &Task`, `words: &mut [u64], list: &mut PriceList`: the tree is written and the price list filled anew within; of one value with all, each contract would have to say of each field that the same list is lent in it still.
// Stays: `IsReady task.now (length words.old) list.old`: of three values that different callers own, so it is no field of one of them.
// Stays: `Standing (net_in task.now.network) (flag_at task.now.search.flags.now) kids.old list.old.sets.now list.old.sizes.now list.old.works.now`: of tree, price list, network and flags; a visit writes the first two, and a field of a struct would be proved anew at each write.
// Stays: `IsSameLoan list.old list.new`, `IsAsLong list.old list.new`: what a caller that lends a price list has of it afterwards, said where it is lent on.

mod falling; // falling.rt: nodes by falling work

use pricing::list::PriceList;
use reconf::{Task, Visited};
use walk::Tree;

// Writes the nodes of the tree in `kids` to the front of `nodes`, by falling work, and returns how many they are.
// Stays: `n` is the number of the tree's leaves, no list's length.
fn order_nodes(
    kids: &[u16],
    n: usize,
    words: &mut [u64],
    list: &PriceList,
    nodes: &mut [u16],
) -> usize
    requires { (n ≤ 512) × (wrong_tree n kids.now ≡ false) × (2048 ≤ length words.old) × (n - 1 ≤ length nodes.old) }
    ensures { (result ≡ n - 1) × (take (n - 1) nodes.new ≡ sorted list.now.works.now (step_order kids.now n)) }
{
    let tree = Tree { kids, leaves: n };
    let c = tree.post_order(words, nodes);
    falling::by_work(&mut nodes[..c], list.works);
    c
}

// Visits `nodes`, one after the other, each in the tree that the visits before it left.
// Stays: the tree is written here; the C interface lends it as a flat list, two children a node.
fn visit_all(
    words: &mut [u64],
    list: &mut PriceList,
    kids: &mut [u16],
    task: &Task,
    nodes: &[u16],
) -> Visited
    requires ready { IsReady task.now (length words.old) list.old }
    requires standing { Standing (net_in task.now.network) (flag_at task.now.search.flags.now) kids.old list.old.sets.now list.old.sizes.now list.old.works.now }
    requires nodes { (length nodes.now ≤ 127) × ((i : ℕ) → i < length nodes.now → get_or nodes.now i 0 < leaf_count (net_in task.now.network) + (leaf_count (net_in task.now.network) - 1)) }
    ensures lent { IsSameLoan list.old list.new }
    ensures long { IsAsLong list.old list.new }
    ensures visits { VisitsAll (net_in task.now.network) (flag_at task.now.search.flags.now) task.now.search.k task.now.search.limit nodes.now kids.old kids.new list.new.sets.now list.new.sizes.now list.new.works.now result.rebuilt result.tried }
{
    let mut rebuilt: u64 = 0;
    let mut tried: u64 = 0;
    for &v in nodes {
        let made = reconf::visit(words, list, kids, task, v);
        rebuilt += made.rebuilt;
        tried += made.tried;
    }
    Visited { rebuilt, tried }
}

// One pass: the order of the nodes is fixed at its start.
// Stays: the tree is written here; the C interface lends it as a flat list, two children a node.
fn pass(words: &mut [u64], list: &mut PriceList, kids: &mut [u16], task: &Task) -> Visited
    requires ready { IsReady task.now (length words.old) list.old }
    requires standing { Standing (net_in task.now.network) (flag_at task.now.search.flags.now) kids.old list.old.sets.now list.old.sizes.now list.old.works.now }
    ensures lent { IsSameLoan list.old list.new }
    ensures long { IsAsLong list.old list.new }
    ensures passes { Passes (net_in task.now.network) (flag_at task.now.search.flags.now) task.now.search.k task.now.search.limit kids.old kids.new list.new.sets.now list.new.sizes.now list.new.works.now result.rebuilt result.tried }
{
    let mut nodes = [0u16; 128];
    let c = order_nodes(kids, task.network.leaf_count(), words, list, &mut nodes);
    visit_all(words, list, kids, task, &nodes[..c])
}

/// Improves the tree `kids` of a network, whose price list is at hand: passes, at most as many as asked, until one rebuilds nothing. `words` is worked in.
// Stays: a number of passes, over no list; the tree is written here, as the flat list that the C interface lends.
pub fn improve(
    words: &mut [u64],
    list: &mut PriceList,
    kids: &mut [u16],
    task: &Task,
    most: usize,
) -> Visited
    requires ready { IsReady task.now (length words.old) list.old }
    requires standing { Standing (net_in task.now.network) (flag_at task.now.search.flags.now) kids.old list.old.sets.now list.old.sizes.now list.old.works.now }
    requires most { most ≤ 255 }
    ensures lent { IsSameLoan list.old list.new }
    ensures long { IsAsLong list.old list.new }
    ensures improves { Improves (net_in task.now.network) (flag_at task.now.search.flags.now) task.now.search.k task.now.search.limit most kids.old kids.new list.new.sets.now list.new.sizes.now list.new.works.now result.rebuilt result.tried }
{
    let mut rebuilt: u64 = 0;
    let mut tried: u64 = 0;
    for _ in 0..most {
        let made = pass(words, list, kids, task);
        rebuilt += made.rebuilt;
        tried += made.tried;
        if made.rebuilt == 0 {
            break;
        }
    }
    Visited { rebuilt, tried }
}
