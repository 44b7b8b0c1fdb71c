// Pricing in lists of which the first places are in use.
ghost use Rattle.std.specs.Prelude.{length};
ghost use Rattle.spec.specs.Calls.{flag_at};
ghost use Rattle.spec.specs.Tree.{pairs_of};
ghost use Rattle.pricing.specs.Fronts.{net_of, ArePriceable, HaveRoom, HasFronts, ArePadded, IsNetworkOf, IsTreeOf};
ghost use Rattle.pricing.specs.Lists.{IsSameLoan};
ghost use Rattle.pricing.specs.Promise.{Pricing};

// Stays: `HasFronts self.now`: counts and lists are any that a caller has, so that it is asked where they are priced, and no type holds it.

use crate::list::PriceList;
use network::Accepted;
use spec::Prices;
use walk::Tree;

/// A network and a tree in lists that may be longer: `m` indices, `n` leaves and `o` outputs are in use. An output past the end of its list is 0,
/// and an odd last place of the children is no child.
// Stays: counts and lists come apart, as a caller lends them; what holds of them is asked where they are priced.
#[derive(Clone, Copy)]
pub struct Fronts<'a> {
    pub m: usize,
    pub n: usize,
    pub o: usize,
    /// the weight of each index, in bits
    pub weights: &'a [u8],
    /// how many indices each leaf names
    pub counts: &'a [u8],
    /// the indices of leaf i stand from place 32 i on
    pub legs: &'a [u16],
    pub outputs: &'a [u16],
    /// two places an internal node, its left and its right child
    pub kids: &'a [u16],
}

impl<'a> Fronts<'a> {
    /// The outputs, at most 32, at the front of a list: those past the end of their list are 0. What stands after them says nothing.
    pub fn padded_outputs(&self) -> [u16; 32]
        requires { HasFronts self.now }
        ensures { ArePadded self.now result }
    {
        let mut padded = [0u16; 32];
        cells::copy(&mut padded, self.outputs, self.o);
        padded
    }

    /// The network of the fronts, which is an accepted one, with the outputs as `padded_outputs` gives them.
    pub fn network<'b>(&'b self, outputs: &'b [u16; 32]) -> Accepted<'b>
        requires fronts { HasFronts self.now }
        requires padded { ArePadded self.now outputs.now }
        ensures { IsNetworkOf self.now result }
    {
        Accepted {
            weights: &self.weights[..self.m],
            leg_counts: &self.counts[..self.n],
            legs: self.legs,
            outputs: &outputs[..self.o],
        }
    }

    /// The tree of the pairs of children, which is one of the `n` leaves.
    // Stays: the pairs lie in a flat list, as they are lent.
    pub fn tree(&self) -> Tree<'a>
        requires { HasFronts self.now }
        ensures { IsTreeOf self.now result }
    {
        Tree {
            kids: &self.kids[..2 * (self.kids.len() / 2)],
            leaves: self.n,
        }
    }
}

/// Prices the tree of the fronts in step order: fills the price list from its front on, each node's set of `w` words, at most 16, size bits and work
/// bits; hands the listing out, five numbers a step: node, left, right, work bits, size bits; answers total, widest and slice bits. The lists have places
/// for each node and each step, and `outside`, which is worked in, as many words as the sets.
// Stays: workspace, listing and flags are lent apart; the order is in a list of the caller's.
pub fn price(
    list: &mut PriceList,
    outside: &mut [u64],
    steps: &mut [u16],
    w: usize,
    fronts: &Fronts,
    flags: &[u8],
    order: &[u16],
) -> Prices
    requires priceable { ArePriceable w fronts.now order.now }
    requires room { HaveRoom w fronts.now order.now list.old (length outside.old) (length steps.old) }
    ensures lent { IsSameLoan list.old list.new }
    ensures pricing { Pricing w (net_of fronts.now) (flag_at flags.now) (pairs_of fronts.now.kids.now) list.old.sets.now list.old.sizes.now list.old.works.now steps.old list.new.sets.now list.new.sizes.now list.new.works.now steps.new result }
{
    let outputs = fronts.padded_outputs();
    let network = fronts.network(&outputs);
    let tree = fronts.tree();
    list.price_listed::<1024>(outside, steps, w, &network, flags, &tree, order)
}
