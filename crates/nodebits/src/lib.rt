#![tactic(auto)]
// Size bits and work bits of each node, from the nodes' sets: a step's work is its children's sizes less what they share, and its size
// is its work less what it drops.
ghost use Rattle.std.specs.Prelude.{◌≡◌, true, not, ◌&&◌, cond, [], map, ℕ, ◌+◌, ◌*◌, ◌<◌, ◌≤◌, eqb, length, get_or};
ghost use Rattle.spec.specs.Lists.{range, sum_of};
ghost use Rattle.spec.specs.Layout.{firsts};
ghost use Rattle.spec.specs.Memory.{over, filled};
ghost use Rattle.slots.specs.Slots.{held};
ghost use Rattle.slots.specs.Weigh.{open_weight, Light, weighed, either, word_weight};
ghost use Rattle.network.specs.Checks.{Rows};
ghost use Rattle.nodesets.specs.Passes.{nodes};
ghost use Rattle.nodebits.specs.Bits.{Effective, StepKnown, InnerKnown, Known, size_of, work_of, leaf_size, node_work};
ghost use Rattle.nodebits.specs.Stepped.{Stepped};

// Stays: `Light effective.now`: weights of at most 8 bits, so that a sum fits its type; one list in a struct of its own would be unwrapped at each read.

use bits::Digits;
use network::scan;

// The weight, or 0 where it is flagged.
// Stays: 0 is the weight that a sliced index counts with, no sign of a missing one.
fn unless(flag: u8, weight: u8) -> u8
    ensures { result ≡ cond (not (eqb flag 0)) 0 weight }
{
    if flag == 0 { weight } else { 0 }
}

// Makes the weight of each flagged index 0.
fn clear_flagged(effective: &mut [u8], flags: &[u8])
    ensures { (j : ℕ) → get_or effective.new j 0 ≡ open_weight effective.old flags.now j }
{
    let n = effective.len().min(flags.len());
    for (j, weight) in effective[..n].iter_mut().enumerate() {
        *weight = unless(flags[j], *weight);
    }
}

/// Writes the weights of `m` indices to `effective`, those of flagged indices as 0, and 0 after them.
// Stays: weights are the network's and flags the caller's, lent apart; the first `m` places of a list that may be longer are in use.
pub fn effective_weights(effective: &mut [u8], m: usize, weights: &[u8], flags: &[u8])
    requires { (m ≤ length weights.now) × (m ≤ length effective.old) }
    ensures { Effective (firsts m weights.now) flags.now effective.new }
{
    cells::fill(effective, 0);
    cells::copy(effective, weights, m);
    clear_flagged(effective, flags);
}

// The summed weights of a leaf's indices.
fn leaf_size(effective: &[u8], leaf: &[u16]) -> usize
    requires { (length leaf.now ≤ 32) × Light effective.now }
    ensures { (result ≡ sum_of (open_weight effective.now []) leaf.now) × (result ≤ 256) }
{
    let mut sum: usize = 0;
    for &leg in leaf {
        sum += usize::from(cells::get_or(effective, usize::from(leg), 0));
    }
    sum
}

// Writes each leaf's size bits, and its work bits, which are 0.
// Stays: by number, as a leaf's number is its place in both lists; the bits are at most 256, which no type of a `usize` says.
fn leaf_bits(
    sizes: &mut [u16],
    works: &mut [u16],
    n: usize,
    counts: &[u8],
    legs: &[u16],
    effective: &[u8],
)
    requires { Rows n counts.now legs.now × Light effective.now × (n ≤ length sizes.old) × (n ≤ length works.old) }
    ensures { (sizes.new ≡ over sizes.old (map (leaf_size effective.now counts.now legs.now) (range n))) × (works.new ≡ over works.old (filled n 0)) }
{
    for i in 0..n {
        let size = leaf_size(effective, scan::leaf(counts, legs, i));
        sizes[i] = size as u16;
        works[i] = 0;
    }
}

// The summed weights of the indices `base` + i for each set digit i of `x`.
// Stays: reads its list at a proved place, where `slots::weigh_word` compares with the end of two lists at each digit.
fn weigh_word(x: u64, base: usize, effective: &[u8]) -> usize
    requires { (base + 64 ≤ length effective.now) × Light effective.now × (base ≤ 65536) }
    ensures { (result ≡ word_weight effective.now [] base x) × (result ≤ 512) }
{
    let mut sum: usize = 0;
    for i in Digits::above(base, x) {
        sum += usize::from(effective[i]);
    }
    sum
}

// The weights of the indices that both children list, and of those that the node drops.
// Stays: a pair of sums with names of their own; other structs of two numbers hold counts, places or bits.
#[derive(Clone, Copy)]
struct Between {
    shared: usize,
    dropped: usize,
}

// Stays: one walk over the words of three slots makes two sums; a chain for each sum would read the three slots again. The number of a word is the base of its indices as well.
fn overlap(sets: &[u64], w: usize, l: usize, r: usize, v: usize, effective: &[u8]) -> Between
    requires { StepKnown w l r v sets.now effective.now }
    ensures { (result.shared ≡ weighed effective.now [] (λ j. held sets.now w l j && held sets.now w r j) (w * 64)) × (result.dropped ≡ weighed effective.now [] (λ j. either sets.now w l r j && not (held sets.now w v j)) (w * 64)) }
{
    let p = l * w;
    let q = r * w;
    let t = v * w;
    let mut shared: usize = 0;
    let mut dropped: usize = 0;
    for k in 0..w {
        let x = sets[p + k];
        let y = sets[q + k];
        let z = sets[t + k];
        let u = x | y;
        shared += weigh_word(x & y, k * 64, effective);
        dropped += weigh_word(u ^ (u & z), k * 64, effective);
    }
    Between { shared, dropped }
}

// The work bits and size bits of a step.
// Stays: a pair of bits with names of their own; other structs of two numbers hold counts, places or sums.
#[derive(Clone, Copy)]
pub struct StepBits {
    pub work: u16,
    pub size: u16,
}

// Those of the step that makes slot `v` of slots `l` and `r`, whose size bits are at hand.
// Stays: a step is read from three slots and two sizes; a struct would be filled for this one call. The casts narrow what the contract bounds.
fn step_bits(
    sets: &[u64],
    w: usize,
    l: usize,
    r: usize,
    v: usize,
    effective: &[u8],
    left: u16,
    right: u16,
) -> StepBits
    requires { StepKnown w l r v sets.now effective.now × (left ≡ size_of effective.now sets.now w l) × (right ≡ size_of effective.now sets.now w r) × ((j : ℕ) → j < w * 64 → held sets.now w v j ≡ true → either sets.now w l r j ≡ true) }
    ensures { (result.work ≡ work_of effective.now sets.now w l r) × (result.size ≡ size_of effective.now sets.now w v) }
{
    let o = overlap(sets, w, l, r, v, effective);
    let work = usize::from(left) + usize::from(right) - o.shared;
    StepBits {
        work: work as u16,
        size: (work - o.dropped) as u16,
    }
}

// In step order, writes each inner node's size bits and work bits. The leaves' size bits are there.
// Stays: the lists that pricing fills are a struct of pricing, a crate above; here two are written while the sets are only read.
fn inner_bits(
    sizes: &mut [u16],
    works: &mut [u16],
    sets: &[u64],
    w: usize,
    n: usize,
    kids: &[u16],
    order: &[u16],
    effective: &[u8],
)
    requires { InnerKnown w n kids.now order.now sets.now effective.now × (nodes n kids.now ≤ length sizes.old) × (nodes n kids.now ≤ length works.old) × ((i : ℕ) → i < n → get_or sizes.old i 0 ≡ size_of effective.now sets.now w i) }
    ensures { Stepped w n kids.now order.now sets.now effective.now sizes.old works.old (length order.now) sizes.new works.new }
{
    for &node in order {
        let v = usize::from(node);
        let l = nodesets::left(kids, n, v);
        let r = nodesets::right(kids, n, v);
        let b = step_bits(sets, w, l, r, v, effective, sizes[l], sizes[r]);
        sizes[v] = b.size;
        works[v] = b.work;
    }
}

/// Writes each node's size bits and work bits, of a tree of `n` leaves; a leaf has no work. The nodes' sets are there.
// Stays: asks that the sets are those of a tree's nodes, and that a leaf's weighs what its indices weigh (`Known`), of any width and network: an `Accepted`
// and a `Tree` in their place would ask all that is checked of them.
pub fn node_bits(
    sizes: &mut [u16],
    works: &mut [u16],
    sets: &[u64],
    w: usize,
    n: usize,
    counts: &[u8],
    legs: &[u16],
    kids: &[u16],
    order: &[u16],
    effective: &[u8],
)
    requires { Known w n counts.now legs.now kids.now order.now sets.now effective.now × (nodes n kids.now ≤ length sizes.old) × (nodes n kids.now ≤ length works.old) }
    ensures { (sizes.new ≡ over sizes.old (map (size_of effective.now sets.now w) (range (nodes n kids.now)))) × (works.new ≡ over works.old (map (node_work effective.now sets.now kids.now w n) (range (nodes n kids.now)))) }
{
    leaf_bits(sizes, works, n, counts, legs, effective);
    inner_bits(sizes, works, sets, w, n, kids, order, effective);
}
