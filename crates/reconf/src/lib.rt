#![tactic(auto)]
//! One visit of a node: its frontier, the search over it, the rebuild if it is cheaper, and then pricing again.
ghost use Rattle.std.specs.Prelude.{◌≡◌, ℕ, ◌+◌, ◌-◌, ◌*◌, ◌^◌, ◌<◌, ◌≤◌, IfSome, length, get_or};
ghost use Rattle.std.proofs.lemmas.List.Edits.{sets as put_at};
ghost use Rattle.spec.specs.Network.{Network, leaf_count};
ghost use Rattle.spec.specs.Calls.{flag_at};
ghost use Rattle.network.specs.Views.{net_in};
ghost use Rattle.pricing.specs.Lists.{IsSameLoan};
ghost use Rattle.reprice.specs.Held.{Standing, IsAsLong};
ghost use Rattle.reconf.specs.Locals.{locals_in};
ghost use Rattle.reconf.specs.Cases.{accepts};
ghost use Rattle.reconf.specs.Node.{Visitable};
ghost use Rattle.reconf.specs.Visits.{Searches, Reconfs, Visits};
ghost use Rattle.reconf.specs.Benches.{IsReady};

// Stays: `kids: &mut [u16], task: &Task`, `words: &mut [u64], list: &mut PriceList`: the tree is written and the price list filled anew within; of one value with all, each contract would have to say of each field that the same list is lent in it still.
// Stays: `IsReady task.now (length words.old) list.old`: of three values that different callers own, so it is no field of one of them.
// Stays: `Standing (net_in task.now.network) (flag_at task.now.search.flags.now) kids.old list.old.sets.now list.old.sizes.now list.old.works.now`: of tree, price list, network and flags; a visit writes the first two, and a field of a struct would be proved anew at each write.
// Stays: `IsSameLoan list.old list.new`, `IsAsLong list.old list.new`: what a caller that lends a price list has of it afterwards, said where it is lent on.

mod search; // search.rt: what a search is asked for

use frontier::Frontier;
use masks::Masks;
use network::Accepted;
use pricing::list::PriceList;
use rebuild::Freed;
pub use search::{Search, Task};
use subset::Searched;

// Writes the unsliced indices that one of the members lists to the front of `local`, rising, and returns how many they are.
fn local_list(
    words: &mut [u64],
    sets: &[u64],
    flags: &[u8],
    members: &[u16],
    local: &mut [u16],
) -> usize
    requires { 4 ≤ length words.old }
    ensures { (result ≡ length (locals_in sets.now members.now (length members.now) flags.now)) × (local.new ≡ put_at local.old 0 (locals_in sets.now members.now (length members.now) flags.now)) }
{
    let mut sliced = [0u64; 4];
    locals::flag_set(&mut sliced, 4, 0, flags);
    locals::all_local_indices(words, 4, sets, &sliced, members, local)
}

// Searches the subsets of the members of node `v`, in the numbers of the local indices.
// Stays: workspace, sets, weights, members and limit come from five owners; a struct would be filled for this one call.
fn search_region<'a>(
    words: &'a mut [u64],
    sets: &[u64],
    weights: &[u8],
    v: u16,
    members: &[u16],
    local: &[u16],
    limit: Option<u16>,
) -> Searched<'a>
    requires room { (1 ≤ length members.now) × (length members.now ≤ 12) × (7 * 2 ^ length members.now ≤ length words.old) }
    requires light { (i : ℕ) → i < length local.now → get_or weights.now (get_or local.now i 0) 0 ≤ 8 }
    ensures finite { IfSome result.cost (λ c. c < 2 ^ 53) }
    ensures searches { Searches sets.now members.now local.now weights.now v limit result.part.now result.cost result.tried }
{
    let mut local_bits = [0u8; 128];
    locals::all_local_weights(&mut local_bits, weights, local);
    let m = members.len();
    let n = subset::mask_count(m);
    let (cost, rest) = words.split_at_mut(n);
    let (part, rest) = rest.split_at_mut(n);
    let (bits, rest) = rest.split_at_mut(n);
    let (rows, _) = rest.as_chunks_mut::<2>();
    let (united, rows) = rows.split_at_mut(n);
    let (kept, _) = rows.split_at_mut(n);
    locals::all_local_sets(united, sets, 4, usize::from(v), members, local);
    let masks = Masks {
        united,
        kept,
        bits,
        cost,
        part,
    };
    subset::search(masks, &local_bits, limit, m)
}

// Is a tree of that cost found, and so much cheaper that the region is rebuilt.
fn accepts(cost: Option<u64>, old: u64) -> bool
    requires finite { IfSome cost (λ c. c < 2 ^ 53) }
    requires old { old < 2 ^ 53 }
    ensures { result ≡ accepts cost old }
{
    cost.is_some_and(|new| rebuild::undercuts(new, old))
}

/// What a visit did: how many rebuilds, how many splits tried.
// Stays: how many rebuilds and how many splits; one type for these and for another two numbers could name neither.
#[derive(Clone, Copy)]
pub struct Visited {
    pub rebuilt: u64,
    pub tried: u64,
}

/// Visits node `v` of the tree `kids` of `n` leaves, whose sets and work bits are at hand: the region below it, down to a frontier of at most as many
/// members as asked, is rebuilt in `kids` if a tree over the members is cheaper.
// Stays: asks a tree of `n` leaves, its sets and work bits, and its accepted network's weights (`Visitable`): a `PriceList` would ask the sizes too, a `Task` the network's legs and outputs.
pub fn reconf_node(
    words: &mut [u64],
    sets: &[u64],
    works: &[u16],
    kids: &mut [u16],
    n: usize,
    weights: &[u8],
    search: &Search,
    v: u16,
) -> Visited
    requires visitable { (N : Network) × Visitable N n weights.now search.now.flags.now kids.old sets.now works.now }
    requires node { v < n + (n - 1) }
    requires words { 4096 + 8 * 2 ^ search.now.k ≤ length words.old }
    ensures { (N : Network) → Visitable N n weights.now search.now.flags.now kids.old sets.now works.now → Reconfs N (flag_at search.now.flags.now) search.now.k search.now.limit v kids.old kids.new result.rebuilt result.tried }
{
    let frontier = Frontier::of(kids, n, works, search.k, v);
    let members = frontier.members();
    if members.len() < 3 {
        return Visited {
            rebuilt: 0,
            tried: 0,
        };
    }
    let mut places = [0u16; 256];
    let c = local_list(words, sets, search.flags, members, &mut places);
    if 128 < c {
        return Visited {
            rebuilt: 0,
            tried: 0,
        };
    }
    let local = &places[..c];
    let found = search_region(words, sets, weights, v, members, local, search.limit);
    let opened = frontier.opened();
    let old = frontier::opened_cost(works, opened);
    if !accepts(found.cost, old) {
        return Visited {
            rebuilt: 0,
            tried: found.tried,
        };
    }
    let all = subset::mask_count(members.len()) - 1;
    rebuild::build(found.part, all, members, &mut Freed::of(opened), kids, n);
    Visited {
        rebuilt: 1,
        tried: found.tried,
    }
}

// The same of the tree of an accepted network, whose price list is at hand.
// Stays: the tree is written here; the C interface lends it as a flat list, two children a node.
fn reconf_listed(
    words: &mut [u64],
    list: &PriceList,
    kids: &mut [u16],
    task: &Task,
    v: u16,
) -> Visited
    requires standing { Standing (net_in task.now.network) (flag_at task.now.search.flags.now) kids.old list.now.sets.now list.now.sizes.now list.now.works.now }
    requires node { v < leaf_count (net_in task.now.network) + (leaf_count (net_in task.now.network) - 1) }
    requires words { 4096 + 8 * 2 ^ task.now.search.k ≤ length words.old }
    ensures { Reconfs (net_in task.now.network) (flag_at task.now.search.flags.now) task.now.search.k task.now.search.limit v kids.old kids.new result.rebuilt result.tried }
{
    let n = task.network.leaf_count();
    let weights = task.network.weights;
    reconf_node(
        words,
        list.sets,
        list.works,
        kids,
        n,
        weights,
        &task.search,
        v,
    )
}

/// Visits node `v` of the tree `kids` of a network, whose price list is at hand: the region below it, down to a frontier of at most as many members as
/// asked, is rebuilt in `kids` if a tree over the members is cheaper, and the tree is then priced again. `words` is worked in.
// Stays: the tree is written here; the C interface lends it as a flat list, two children a node.
pub fn visit(
    words: &mut [u64],
    list: &mut PriceList,
    kids: &mut [u16],
    task: &Task,
    v: u16,
) -> Visited
    requires ready { IsReady task.now (length words.old) list.old }
    requires standing { Standing (net_in task.now.network) (flag_at task.now.search.flags.now) kids.old list.old.sets.now list.old.sizes.now list.old.works.now }
    requires node { v < leaf_count (net_in task.now.network) + (leaf_count (net_in task.now.network) - 1) }
    ensures lent { IsSameLoan list.old list.new }
    ensures long { IsAsLong list.old list.new }
    ensures visits { Visits (net_in task.now.network) (flag_at task.now.search.flags.now) task.now.search.k task.now.search.limit v kids.old kids.new list.new.sets.now list.new.sizes.now list.new.works.now result.rebuilt result.tried }
{
    let made = reconf_listed(words, list, kids, task, v);
    if made.rebuilt == 0 {
        return made;
    }
    reprice::price(words, list, kids, &task.network, task.search.flags);
    made
}
