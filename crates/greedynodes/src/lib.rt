#![tactic(auto)]
//! Greedy over a list of leaves: its tables, the sets of which are in lent words, and the children of the new nodes.
ghost use Rattle.std.specs.Prelude.{List, ◌++◌, ◌≡◌, ℕ, ◌*◌, ◌<◌, ◌≤◌, length, IfErr, OnErr};
ghost use Rattle.spec.specs.Network.{Network as Net};
ghost use Rattle.spec.specs.Tree.{Pair, flat_of};
ghost use Rattle.spec.specs.declared.Refusal.TheVariants.{TableTooWide};
ghost use Rattle.slots.specs.Weigh.{Light};
ghost use Rattle.greedynodes.specs.Begin.{Room, Asks};
ghost use Rattle.greedynodes.specs.Ends.{Planned, Plans, PlansOver};
ghost use Rattle.greedynodes.specs.Copied.{copied_to};

use arrayvec::ArrayVec;
use network::Accepted;
use spec::Refusal;
use tables::row::Row;
use tables::scoring::Scoring;
use tables::slotted::Tables;

/// How many words a set of indices has, and one of leaves: as few as hold all of them.
fn set_width(indices: usize, leaves: usize) -> usize
    ensures holds { (indices ≤ result * 64) × (leaves ≤ result * 64) }
    ensures least { (w : ℕ) → indices ≤ w * 64 → leaves ≤ w * 64 → result ≤ w }
{
    indices.max(leaves).div_ceil(64)
}

/// Copies the first `n` numbers of a list to the places of `kids` from `at` on.
// Stays: the numbers are copied one by one: one list is read and the other written totally, and the place is a sum, so no slice method has this promise.
pub fn copy_out(kids: &mut [u16], at: usize, list: &[u16], n: usize)
    requires { (at < 1048576) × (n < 1048576) }
    ensures { kids.new ≡ copied_to kids.old at list.now n }
{
    // Stays: the definition is total: past the end of `list` a 0 is put, and past the end of `kids` nothing, so the two are no slices to copy.
    for i in 0..n {
        cells::put(kids, at + i, cells::get_or(list, i, 0));
    }
}

/// Greedy over some leaves of a network of `n` leaves whose lists are lent, onto the array of `count` nodes whose children stand at the front of
/// `kids`: the new nodes' children are put after them. Returns the number of the tree that is built. Refused, with `kids` as it was, where a
/// scored pair is too wide.
// Stays: lists, of which it asks that they fit; an `Accepted` in their place would ask of callers that the check has passed.
pub fn greedy_nodes(
    words: &mut [u64],
    weights: &[u8],
    n: usize,
    counts: &[u8],
    legs: &[u16],
    outputs: &[u16],
    leaves: &[u16],
    kids: &mut [u16],
    count: usize,
) -> Result<u16, Refusal>
    requires room { Room n count weights.now outputs.now leaves.now words.old }
    requires light { Light weights.now }
    ensures planned { Plans n count weights.now counts.now legs.now outputs.now leaves.now kids.old kids.new result }
    ensures untouched { OnErr result (kids.new ≡ kids.old) }
    ensures why { IfErr result (λ r. r ≡ TableTooWide) }
{
    let scoring = Scoring {
        width: set_width(weights.len(), n),
        weights,
        start: leaves.len(),
    };
    // Made first and filled where it stands: to make the lists beside it and copy them in took a tenth longer for 8 leaves.
    let mut tables = Tables {
        nodes: [0; 256],
        sizes: [0; 256],
        live: ArrayVec::new(),
        rows: [Row::STALE; 256],
    };
    let mut made = [0u16; 256];
    start::prepare(
        words,
        &mut tables,
        &scoring,
        n,
        counts,
        legs,
        outputs,
        leaves,
    );
    let merges = merging::connect(words, &mut tables, &scoring, n, count, &mut made)?;
    let top = rest::join_rest(&mut tables, n, merges, count + merges, &mut made);
    copy_out(kids, count * 2, &made, leaves.len().saturating_sub(1) * 2);
    Ok(top)
}

/// The same over an accepted network's lists: it is lent 1,036 words or more, asked for at most 128 leaves, and the array has fewer than 8,192 nodes.
// Stays: `count` is how many nodes the array has so far, and `kids` is longer; the leaves are some of the network's, and both bounds are of this call alone.
pub fn plan_leaves(
    words: &mut [u64],
    network: &Accepted,
    leaves: &[u16],
    kids: &mut [u16],
    count: usize,
) -> Result<u16, Refusal>
    requires { (1036 ≤ length words.old) × (length leaves.now ≤ 128) × (count < 8192) }
    ensures planned { PlansOver network.now count leaves.now kids.old kids.new result }
    ensures untouched { OnErr result (kids.new ≡ kids.old) }
    ensures why { IfErr result (λ r. r ≡ TableTooWide) }
{
    // So many words hold the slots of four words each: of a length that the compiler knows, a slot's words are checked at once.
    greedy_nodes(
        &mut words[..1036],
        network.weights,
        network.leg_counts.len(),
        network.leg_counts,
        network.legs,
        network.outputs,
        leaves,
        kids,
        count,
    )
}
