#![tactic(auto)]
// Each node's set of indices, in slots of lent words: up, in step order, what leaves below a node name; down, what is wanted outside it.
ghost use Rattle.std.specs.Prelude.{◌≡◌, ◌+◌, ◌*◌, ◌<◌, ◌≤◌, length};
ghost use Rattle.laws.specs.FlatLaws.{left_of, right_of};
ghost use Rattle.slots.specs.Writes.{leaf_has};
ghost use Rattle.nodesets.specs.Passes.{nodes, with_sets, joined, ups, downs, cuts};
ghost use Rattle.nodesets.specs.Steps.{Steps};
ghost use Rattle.nodesets.specs.Lists.{Ordered, SetsAre};

mod mix; // mix.rt: a slot made of one of its own list and one of another list

use mix::combine_with;
use slots::mix::{Both, Either};

/// The left child of inner node `v`, of `n` leaves.
// Stays: asks no more than a list with a place for the node; `walk::Tree` is a whole tree that passed the check. `n` is the number of leaves, no list's length.
#[inline]
pub fn left(kids: &[u16], n: usize, v: usize) -> usize
    requires { (n ≤ v) × (v < nodes n kids.now) }
    ensures { (result ≡ left_of kids.now n v) × (result < 65536) }
{
    usize::from(kids[(v - n) * 2])
}

/// The right child of inner node `v`, of `n` leaves.
// Stays: asks no more than a list with a place for the node; `walk::Tree` is a whole tree that passed the check. `n` is the number of leaves, no list's length.
#[inline]
pub fn right(kids: &[u16], n: usize, v: usize) -> usize
    requires { (n ≤ v) × (v < nodes n kids.now) }
    ensures { (result ≡ right_of kids.now n v) × (result < 65536) }
{
    usize::from(kids[(v - n) * 2 + 1])
}

// Makes slot i the set of leaf i's indices.
// Stays: by number, as a leaf's number is its slot's and the place of its row of 32 indices; a leaf past the counts' end has none.
fn leaf_sets(sets: &mut [u64], w: usize, n: usize, counts: &[u8], legs: &[u16])
    requires { (w ≤ 16) × (n ≤ 65536) }
    ensures { sets.new ≡ with_sets sets.old w (leaf_has counts.now legs.now) n }
{
    for i in 0..n {
        let count = usize::from(cells::get_or(counts, i, 0));
        slots::empty(sets, w, i);
        slots::put_all(sets, w, i, legs, i * 32, count);
    }
}

// Makes slot `c` the union of slots `a` and `b`.
// Stays: word by word, as all three slots lie in one list, which is read and written in each turn; its places are known to be there, which `slots::unite` does not ask.
fn join(sets: &mut [u64], w: usize, a: usize, b: usize, c: usize)
    requires { (a * w + w ≤ length sets.old) × (b * w + w ≤ length sets.old) × (c * w + w ≤ length sets.old) }
    ensures { sets.new ≡ joined w sets.old a b c }
{
    let p = a * w;
    let q = b * w;
    let r = c * w;
    for k in 0..w {
        sets[r + k] = sets[p + k] | sets[q + k];
    }
}

// In step order, makes each node's set the union of its children's.
// Stays: a tree is lent as a flat list, with its order in a list beside it; what a step writes another reads, so the loop's invariant is the promise.
fn join_up(sets: &mut [u64], w: usize, n: usize, kids: &[u16], order: &[u16])
    requires { Steps n kids.now order.now × (nodes n kids.now * w ≤ length sets.old) }
    ensures { sets.new ≡ ups w (left_of kids.now n) (right_of kids.now n) order.now sets.old (length order.now) }
{
    for &node in order {
        let v = usize::from(node);
        let l = left(kids, n, v);
        let r = right(kids, n, v);
        join(sets, w, l, r, v);
    }
}

// From the root down, makes slot c of `outside` what is wanted outside node c, for the children c of each node.
// Stays: a tree is lent as a flat list, with its order in a list beside it; what a step writes another reads, so the loop's invariant is the promise.
fn want_down(outside: &mut [u64], sets: &[u64], w: usize, n: usize, kids: &[u16], order: &[u16])
    requires { Steps n kids.now order.now × (nodes n kids.now * w ≤ length outside.old) × (nodes n kids.now * w ≤ length sets.now) }
    ensures { outside.new ≡ downs w (left_of kids.now n) (right_of kids.now n) order.now sets.now outside.old (length order.now) }
{
    for &node in order.iter().rev() {
        let v = usize::from(node);
        let l = left(kids, n, v);
        let r = right(kids, n, v);
        combine_with::<Either>(outside, w, v, l, sets, r);
        combine_with::<Either>(outside, w, v, r, sets, l);
    }
}

// Cuts each inner node's set to what is wanted outside the node.
// Stays: a tree is lent as a flat list, with its order in a list beside it; all slots lie in one list, which each turn writes, so the loop's invariant is the promise.
fn trim_all(sets: &mut [u64], outside: &[u64], w: usize, n: usize, kids: &[u16], order: &[u16])
    requires { Steps n kids.now order.now × (nodes n kids.now * w ≤ length sets.old) × (nodes n kids.now * w ≤ length outside.now) }
    ensures { sets.new ≡ cuts w order.now outside.now sets.old (length order.now) }
{
    for &node in order {
        let v = usize::from(node);
        combine_with::<Both>(sets, w, v, v, outside, v);
    }
}

/// Makes slot v of `sets` the set of the indices that node v lists, for every node v of a tree of `n` leaves, of a network with `o` outputs;
/// `outside` is worked in.
// Stays: asks a tree and its step order (`Ordered`), and of the network two bounds: a `Tree` would ask at most 512 leaves, an `Accepted` the weights too, and all that is checked of a network.
pub fn node_sets(
    sets: &mut [u64],
    outside: &mut [u64],
    w: usize,
    n: usize,
    o: usize,
    counts: &[u8],
    legs: &[u16],
    outputs: &[u16],
    kids: &[u16],
    order: &[u16],
)
    requires narrow { w ≤ 16 }
    requires few { (n ≤ 65536) × (o ≤ 65536) }
    requires ordered { Ordered n kids.now order.now }
    requires sets { nodes n kids.now * w ≤ length sets.old }
    requires outside { nodes n kids.now * w ≤ length outside.old }
    ensures { SetsAre w n o counts.now legs.now outputs.now kids.now sets.old sets.new }
{
    let top = (n + kids.len() / 2).saturating_sub(1);
    leaf_sets(sets, w, n, counts, legs);
    slots::empty(outside, w, top);
    slots::put_all(outside, w, top, outputs, 0, o);
    join_up(sets, w, n, kids, order);
    want_down(outside, sets, w, n, kids, order);
    trim_all(sets, outside, w, n, kids, order);
}
