#![tactic(auto)]
//! Greedy's start: the leaves' tables in slots of lent words, their sizes, and the indices that stay whatever is merged.
ghost use Rattle.std.specs.Prelude.{[], ◌≡◌, ◌+◌, ◌*◌, ◌<◌, ◌≤◌, length};
ghost use Rattle.spec.specs.Lists.{range};
ghost use Rattle.slots.specs.Slots.{with_set};
ghost use Rattle.slots.specs.Writes.{among, leaf_has};
ghost use Rattle.slots.specs.Weigh.{either, weighed};
ghost use Rattle.tables.specs.Lists.{lists_in};
ghost use Rattle.start.specs.Leaves.{with_other, outside_to, with_leaves, with_sizes, start_words, prepared_in, put_all};

// Stays: `tables: &mut Tables, scoring: &Scoring`: the one is written and the other read; a value that lends both would have each clause say that the same tables come back.
use arrayvec::ArrayVec;
use tables::row::Row;
use tables::scoring::Scoring;
use tables::slotted::Tables;
use tables::{OUTSIDE, TWICE};

/// Makes slot `s` the set of the indices of leaf `v`.
// Stays: the network's lists are lent apart, so no check of them is asked for; the bounds are those of places in memory.
fn put_leaf(sets: &mut [u64], w: usize, s: usize, counts: &[u8], legs: &[u16], v: usize)
    requires { (w ≤ 16) × (s < 1048576) × (v < 65536) }
    ensures { sets.new ≡ with_set sets.old w s (leaf_has counts.now legs.now v) }
{
    let count = usize::from(cells::get_or(counts, v, 0));
    slots::empty(sets, w, s);
    // Stays: 32 places for each leaf is the layout of the list of legs in the C interface.
    slots::put_all(sets, w, s, legs, v * 32, count);
}

/// Makes slots 0, 1, .. the sets of the indices of some leaves.
// Stays: the loop lends the same words to each turn; `for_each` with a closure over them is no plainer.
fn put_leaves(sets: &mut [u64], w: usize, counts: &[u8], legs: &[u16], leaves: &[u16])
    requires { (w ≤ 16) × (length leaves.now < 1048576) }
    ensures { sets.new ≡ with_leaves w counts.now legs.now leaves.now sets.old (length leaves.now) }
{
    for (i, &v) in leaves.iter().enumerate() {
        put_leaf(sets, w, i, counts, legs, usize::from(v));
    }
}

/// Makes slot `s` the set of the numbers of a list.
// Stays: the bounds are those of places in memory, and a type of such numbers would be unwrapped at each use; a set is named by its list, width and slot.
fn put_list(sets: &mut [u64], w: usize, s: usize, list: &[u16])
    requires { (w ≤ 16) × (s < 1048576) × (length list.now ≤ 4294967296) }
    ensures { sets.new ≡ with_set sets.old w s (among list.now 0 (length list.now)) }
{
    slots::empty(sets, w, s);
    slots::put_all(sets, w, s, list, 0, list.len());
}

/// Puts the indices of leaf `l` into slot 256, unless slot 257 has `l`.
// Stays: the network's lists are lent apart, so no check of them is asked for; the bounds are those of places in memory.
fn put_other(sets: &mut [u64], w: usize, counts: &[u8], legs: &[u16], l: usize)
    requires { (w ≤ 16) × (l < 65536) }
    ensures { sets.new ≡ with_other w counts.now legs.now sets.old l }
{
    if slots::has(sets, w, TWICE, l) {
        return;
    }
    let count = usize::from(cells::get_or(counts, l, 0));
    // Stays: 32 places for each leaf is the layout of the list of legs in the C interface.
    slots::put_all(sets, w, OUTSIDE, legs, l * 32, count);
}

/// Makes slot 256 the set of the outputs and of the indices of the leaves, of `n` in all, that slot 257 has not.
// Stays: `n` is how many leaves there are in all, planned or not, and the promise does not ask that the list of counts has as many.
fn put_outside(sets: &mut [u64], w: usize, n: usize, counts: &[u8], legs: &[u16], outputs: &[u16])
    requires { (w ≤ 16) × (n ≤ w * 64) × (length outputs.now ≤ 4294967296) }
    ensures { sets.new ≡ outside_to w counts.now legs.now sets.old outputs.now n }
{
    put_list(sets, w, OUTSIDE, outputs);
    // Stays: a walk over numbers, since the leaves that are not planned stand in no list to iterate.
    for l in 0..n {
        put_other(sets, w, counts, legs, l);
    }
}

/// Makes the sets of the start: those of some leaves in slots 0, 1, .., and what stays whatever is merged. Leaves are `n` in all.
// Stays: `n` is how many leaves there are in all, planned or not, and the promise does not ask that the list of counts has as many.
fn put_sets(
    sets: &mut [u64],
    w: usize,
    n: usize,
    counts: &[u8],
    legs: &[u16],
    outputs: &[u16],
    leaves: &[u16],
)
    requires { (w ≤ 16) × (n ≤ w * 64) × (length outputs.now ≤ 4294967296) × (length leaves.now < 1048576) }
    ensures { sets.new ≡ start_words w n counts.now legs.now outputs.now leaves.now sets.old }
{
    put_list(sets, w, TWICE, leaves);
    put_outside(sets, w, n, counts, legs, outputs);
    put_leaves(sets, w, counts, legs, leaves);
}

/// The size bits of the table in slot `i`.
fn size_bits(sets: &[u64], scoring: &Scoring, i: usize) -> usize
    requires { i < 1048576 }
    ensures { result ≡ weighed scoring.now.weights.now [] (either sets.now scoring.now.width i i) (scoring.now.width * 64) }
{
    let weights = scoring.weights;
    slots::weigh(sets, scoring.width, i, i, weights, &weights[..0])
}

/// Puts the size bits of the tables in the first `n` slots down.
fn weigh_all(sets: &[u64], scoring: &Scoring, n: usize, sizes: &mut [usize])
    requires { n < 1048576 }
    ensures { sizes.new ≡ with_sizes sets.now scoring.now.width scoring.now.weights.now sizes.old n }
{
    let most = n.min(sizes.len());
    for (i, size) in sizes[..most].iter_mut().enumerate() {
        *size = size_bits(sets, scoring, i);
    }
}

/// Puts 0, 1, .. at the first `n` places, as far as the list goes.
// Stays: the one of `matching` fills its whole list, and is a private step of a crate that stands on no part of greedy.
pub fn count_up(list: &mut [u16], n: usize)
    requires { n < 65536 }
    ensures { list.new ≡ put_all (λ i. i) list.old n }
{
    let most = n.min(list.len());
    for (i, place) in list[..most].iter_mut().enumerate() {
        // Stays: the number fits by what is known here; `try_from` would add a failure that never comes.
        *place = i as u16;
    }
}

/// Puts the slots of `count` tables, all of them live, in place of those that a list has.
// Stays: `extend` over the numbers answers a `Result`, for a list that runs out of room, which is never so here.
fn put_live(live: &mut ArrayVec<u16, 256>, count: usize)
    requires { count ≤ 256 }
    ensures { live.new.items ≡ range count }
{
    live.clear();
    for slot in 0..count {
        // Stays: the number fits by what is known here; `try_from` would add a failure that never comes.
        live.push(slot as u16);
    }
}

/// Puts the tables of some leaves in place of those that were there: their sets and what stays whatever is merged, the leaves' numbers, the size bits,
/// and the slots, all of them live; none has its least pair yet. Leaves are `n` in all.
// Stays: `n` is how many leaves there are in all, planned or not, and the promise does not ask that the list of counts has as many.
pub fn prepare(
    sets: &mut [u64],
    tables: &mut Tables,
    scoring: &Scoring,
    n: usize,
    counts: &[u8],
    legs: &[u16],
    outputs: &[u16],
    leaves: &[u16],
)
    requires { (n ≤ scoring.now.width * 64) × (length outputs.now ≤ 4294967296) × (length leaves.now ≤ 256) }
    ensures { lists_in sets.new tables.new ≡ prepared_in scoring.now.width scoring.now.weights.now n counts.now legs.now outputs.now leaves.now (lists_in sets.old tables.old) }
{
    put_sets(sets, scoring.width, n, counts, legs, outputs, leaves);
    cells::copy(&mut tables.nodes, leaves, leaves.len());
    weigh_all(sets, scoring, leaves.len(), &mut tables.sizes);
    put_live(&mut tables.live, leaves.len());
    tables.rows = [Row::STALE; 256];
}
