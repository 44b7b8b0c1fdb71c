// The price list: an entry for each node, in lists that are lent together.
ghost use Rattle.std.specs.Prelude.{◌≡◌, ◌+◌, ◌*◌, ◌≤◌, length};
ghost use Rattle.spec.specs.Layout.{firsts};
ghost use Rattle.spec.specs.Tree.{pairs_of};
ghost use Rattle.spec.specs.Network.{index_count};
ghost use Rattle.spec.specs.Calls.{flag_at, node_places, step_places};
ghost use Rattle.spec.specs.Price.{up_to};
ghost use Rattle.network.specs.Views.{net_in};
ghost use Rattle.pricing.specs.Answers.{widest_in};
ghost use Rattle.pricing.specs.Sums.{work_sum};
ghost use Rattle.pricing.specs.Promise.{FitsIn, HasLeavesOf, IsOrderOf, Filled, Pricing};
ghost use Rattle.pricing.specs.Lists.{IsSameLoan, HasRoom};

use network::Accepted;
use spec::{Prices, Total};
use walk::Tree;

/// The lists that pricing fills from their fronts on.
// Stays: the C interface lends the three lists apart, each with its own type.
#[derive(Drop)]
pub struct PriceList<'a> {
    /// A set for each node: the indices that the node lists.
    pub sets: &'a mut [u64],
    /// Each node's size bits.
    pub sizes: &'a mut [u16],
    /// Each node's work bits; a leaf has none.
    pub works: &'a mut [u16],
}

impl<'a> PriceList<'a> {
    /// Prices the nodes of a network's tree in step order: each node's set of `w` words, its size bits and its work bits with the given flags.
    /// A set has at most `M` places for indices, `w * 64 ≤ M`, and 1,024 are always enough; `outside` is worked in.
    // Stays: workspace, flags and tree are lent apart by the C interface; the order is in a list of the caller's.
    pub fn price<const M: usize>(
        &mut self,
        outside: &mut [u64],
        w: usize,
        network: &Accepted,
        flags: &[u8],
        tree: &Tree,
        order: &[u16],
    )
        requires width { FitsIn M w }
        requires fits { index_count (net_in network.now) ≤ w * 64 }
        requires leaves { HasLeavesOf network.now tree.now }
        requires order { IsOrderOf tree.now order.now }
        requires outside { node_places (net_in network.now) * w ≤ length outside.old }
        requires room { HasRoom w (node_places (net_in network.now)) self.old }
        ensures lent { IsSameLoan self.old self.new }
        ensures filled { Filled w (net_in network.now) (flag_at flags.now) (pairs_of tree.now.kids.now) self.old.sets.now self.old.sizes.now self.old.works.now self.new.sets.now self.new.sizes.now self.new.works.now }
    {
        let (weights, counts) = (network.weights, network.leg_counts);
        let (legs, outputs) = (network.legs, network.outputs);
        let (m, n, o) = (weights.len(), counts.len(), outputs.len());
        let kids = tree.kids;
        let mut effective = [0u8; M];
        let sets = &mut *self.sets;
        let sizes = &mut *self.sizes;
        let works = &mut *self.works;
        nodebits::effective_weights(&mut effective, m, weights, flags);
        nodesets::node_sets(sets, outside, w, n, o, counts, legs, outputs, kids, order);
        nodebits::node_bits(
            sizes, works, sets, w, n, counts, legs, kids, order, &effective,
        );
    }

    /// Prices as `price` does, hands the listing out, five numbers a step: node, left, right, work bits, size bits, and answers total, widest and slice bits.
    // Stays: workspace, listing, flags and tree are lent apart by the C interface; the order is in a list of the caller's.
    pub fn price_listed<const M: usize>(
        &mut self,
        outside: &mut [u64],
        steps: &mut [u16],
        w: usize,
        network: &Accepted,
        flags: &[u8],
        tree: &Tree,
        order: &[u16],
    ) -> Prices
        requires width { FitsIn M w }
        requires fits { index_count (net_in network.now) ≤ w * 64 }
        requires leaves { HasLeavesOf network.now tree.now }
        requires order { IsOrderOf tree.now order.now }
        requires outside { node_places (net_in network.now) * w ≤ length outside.old }
        requires room { HasRoom w (node_places (net_in network.now)) self.old }
        requires steps { step_places (net_in network.now) * 5 ≤ length steps.old }
        ensures lent { IsSameLoan self.old self.new }
        ensures pricing { Pricing w (net_in network.now) (flag_at flags.now) (pairs_of tree.now.kids.now) self.old.sets.now self.old.sizes.now self.old.works.now steps.old self.new.sets.now self.new.sizes.now self.new.works.now steps.new result }
    {
        self.price::<M>(outside, w, network, flags, tree, order);
        let weights = network.weights;
        let (n, c) = (network.leg_counts.len(), order.len());
        crate::list_steps(steps, tree, order, self);
        Prices {
            total: self.total(n, c),
            widest: self.widest(n + c),
            slice_bits: crate::slice_bits(weights.len(), weights, flags),
        }
    }

    /// The total of the `c` inner nodes from number `n` on.
    #[inline]
    pub fn total(&self, n: usize, c: usize) -> Total
        requires { n + c ≤ length self.now.works.now }
        ensures { result ≡ up_to (work_sum self.now.works.now n c) }
    {
        crate::total_of(self.works, n, c)
    }

    /// The size bits of the widest of the first `m` nodes; none without nodes.
    #[inline]
    pub fn widest(&self, m: usize) -> Option<u16>
        requires { m ≤ length self.now.sizes.now }
        ensures { result ≡ widest_in (firsts m self.now.sizes.now) }
    {
        crate::widest_of(self.sizes, m)
    }
}
