#![tactic(auto)]
// Pricing on lent lists: each node's set, size bits and work bits, the listing, total, widest and slice bits.
ghost use Rattle.std.specs.Prelude.{◌≡◌, not, cond, ◌∷◌, [], eqb, ◌+◌, ◌*◌, ◌<◌, ◌≤◌, length};
ghost use Rattle.std.proofs.lemmas.List.Edits.{sets};
ghost use Rattle.spec.specs.Lists.{range, sum_of};
ghost use Rattle.spec.specs.Layout.{firsts};
ghost use Rattle.spec.specs.Memory.{over};
ghost use Rattle.spec.specs.Price.{up_to};
ghost use Rattle.slots.specs.Weigh.{Light};
ghost use Rattle.laws.specs.FlatLaws.{left_of, right_of};
ghost use Rattle.nodesets.specs.Passes.{nodes};
ghost use Rattle.nodesets.specs.Steps.{Steps};
ghost use Rattle.pricing.specs.Answers.{widest_in};
ghost use Rattle.pricing.specs.Sums.{work_sum, slice_share};
ghost use Rattle.pricing.specs.Lines.{lines};

pub mod fronts; // fronts.rt: pricing in lists of which the first places are in use
pub mod list; // list.rt: the price list

use list::PriceList;
use spec::Total;
use walk::Tree;

/// The total of the `c` inner nodes from number `n` on: the sum of 2 to their work bits, or beyond from 2^53 on.
// Stays: it stops where a step has 53 work bits or more, or the sum reaches 2^53: from there on it is beyond, and power and sum fit. `n` is a node's number, no length.
pub fn total_of(works: &[u16], n: usize, c: usize) -> Total
    requires { n + c ≤ length works.now }
    ensures { result ≡ up_to (work_sum works.now n c) }
{
    let mut sum: u64 = 0;
    for &bits in &works[n..n + c] {
        if 53 <= bits {
            return Total::Beyond;
        }
        sum += 1 << bits;
        if 9007199254740992 <= sum {
            return Total::Beyond;
        }
    }
    Total::Exact(sum)
}

/// The size bits of the widest of the first `m` nodes; none without nodes.
// Stays: the `widest` of the first `m` nodes, as the definition names it; they are priced in a list that is lent longer.
pub fn widest_of(sizes: &[u16], m: usize) -> Option<u16>
    requires { m ≤ length sizes.now }
    ensures { result ≡ widest_in (firsts m sizes.now) }
{
    sizes[..m].iter().copied().max()
}

// The weight, if it is flagged.
fn share(flag: u8, weight: u8) -> u8
    ensures { (result ≡ cond (not (eqb flag 0)) weight 0) × (result ≤ weight) }
{
    if flag == 0 { 0 } else { weight }
}

/// The summed weights of the flagged indices, of `m` in all. Flags past the end of their list are clear.
// Stays: weights are the network's and flags the caller's, lent apart; its clause is of the first `m` places of a list that may be longer.
pub fn slice_bits(m: usize, weights: &[u8], flags: &[u8]) -> u16
    requires { (m ≤ length weights.now) × (m ≤ 1024) × Light (firsts m weights.now) }
    ensures { result ≡ sum_of (slice_share weights.now flags.now) (range m) }
{
    let mut sum: u16 = 0;
    for (&flag, &weight) in flags.iter().zip(&weights[..m]) {
        sum += u16::from(share(flag, weight));
    }
    sum
}

// A step's five numbers at `at`.
// Stays: five numbers of one type, told apart by their names alone; the struct for them, `steps::Step`, is of a crate above.
fn put_step(steps: &mut [u16], at: usize, v: u16, l: u16, r: u16, work: u16, size: u16)
    requires { at + 5 ≤ length steps.old }
    ensures { steps.new ≡ sets steps.old at (v ∷ l ∷ r ∷ work ∷ size ∷ []) }
{
    steps[at] = v;
    steps[at + 1] = l;
    steps[at + 2] = r;
    steps[at + 3] = work;
    steps[at + 4] = size;
}

// The listing: node, left, right, work bits and size bits of each step in order.
// Stays: by index, as a zip with a list that is written tells the proof only its length; the listing is flat, as the C interface lends it.
fn list_steps(steps: &mut [u16], tree: &Tree, order: &[u16], list: &PriceList)
    requires { Steps tree.now.leaves tree.now.kids.now order.now × (length order.now * 5 ≤ length steps.old) × (nodes tree.now.leaves tree.now.kids.now ≤ length list.now.works.now) × (nodes tree.now.leaves tree.now.kids.now ≤ length list.now.sizes.now) }
    ensures { steps.new ≡ over steps.old (lines (left_of tree.now.kids.now tree.now.leaves) (right_of tree.now.kids.now tree.now.leaves) list.now.works.now list.now.sizes.now order.now) }
{
    let (n, kids) = (tree.leaves, tree.kids);
    for k in 0..order.len() {
        let node = order[k];
        let v = usize::from(node);
        let at = (v - n) * 2;
        put_step(
            steps,
            k * 5,
            node,
            kids[at],
            kids[at + 1],
            list.works[v],
            list.sizes[v],
        );
    }
}
