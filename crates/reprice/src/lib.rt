#![tactic(auto)]
// Pricing for improvement: each node's set, size bits and work bits, in a price list, with no listing and no answer.
ghost use Rattle.std.specs.Prelude.{false, ◌≡◌, ◌≤◌, length};
ghost use Rattle.spec.specs.Network.{leaf_count};
ghost use Rattle.spec.specs.Calls.{wrong_tree, flag_at};
ghost use Rattle.network.specs.Views.{net_in};
ghost use Rattle.pricing.specs.Lists.{IsSameLoan};
ghost use Rattle.reprice.specs.Held.{PriceHeld, IsAsLong};

// Stays: `2048 ≤ length words.old`: a length that is stated once, in the contract that the caller reads; a slice's type has none.
// Stays: `IsAsLong list.old list.new`, `IsSameLoan list.old list.new`: said of what a call hands back; a type says what holds of a value, not what a call left as it was.

use network::Accepted;
use pricing::list::PriceList;
use walk::Tree;

/// Prices the tree `kids` of a network with the given flags, in sets of four words: each node's set, size bits and work bits. `words` is worked in.
// Stays: the C interface lends flags, tree and workspace apart, the tree as a flat list, which improvement writes between two prices.
pub fn price(
    words: &mut [u64],
    list: &mut PriceList,
    kids: &[u16],
    network: &Accepted,
    flags: &[u8],
)
    requires words { 2048 ≤ length words.old }
    requires room { (1020 ≤ length list.old.sets.now) × (255 ≤ length list.old.sizes.now) × (255 ≤ length list.old.works.now) }
    requires right { wrong_tree (leaf_count (net_in network.now)) kids.now ≡ false }
    ensures lent { IsSameLoan list.old list.new }
    ensures long { IsAsLong list.old list.new }
    ensures held { PriceHeld (net_in network.now) (flag_at flags.now) kids.now list.new.sets.now list.new.sizes.now list.new.works.now }
{
    let mut order = [0u16; 128];
    let tree = Tree {
        kids,
        leaves: network.leaf_count(),
    };
    let c = tree.post_order(words, &mut order);
    list.price::<256>(words, 4, network, flags, &tree, &order[..c]);
}
