// Slicing in lists of which the first places are in use.
ghost use Rattle.std.specs.Prelude.{length};
ghost use Rattle.pricing.specs.Fronts.{net_of, ArePriceable};
ghost use Rattle.slicing.specs.Turns.{Within, Turned, Sliced};
ghost use Rattle.slicing.specs.Fronts.{HaveTurnRoom};

use pricing::fronts::Fronts;

/// Prices the tree of the fronts, and flags one index more, unless the widest table is within `target` bits or no candidate is left. Was one flagged.
/// A flag is 0 or 1; `outside`, which is worked in, has four words a node.
// Stays: the words are worked in, the flags are written, and the order is a list of the caller's.
pub fn turn(
    outside: &mut [u64],
    flags: &mut [u8],
    fronts: &Fronts,
    order: &[u16],
    target: u16,
) -> bool
    requires priceable { ArePriceable 4 fronts.now order.now }
    requires room { HaveTurnRoom fronts.now order.now (length outside.old) }
    requires within { Within (net_of fronts.now) fronts.now.kids.now flags.old }
    ensures { Turned (net_of fronts.now) target fronts.now.kids.now flags.old flags.new result }
{
    let outputs = fronts.padded_outputs();
    let network = fronts.network(&outputs);
    let tree = fronts.tree();
    crate::turn(outside, flags, &network, &tree, order, target)
}

/// Slices the tree of the fronts as it is, turn after turn, each as `turn` makes it.
// Stays: the words are worked in, the flags are written, and the order is a list of the caller's.
pub fn slice(outside: &mut [u64], flags: &mut [u8], fronts: &Fronts, order: &[u16], target: u16)
    requires priceable { ArePriceable 4 fronts.now order.now }
    requires room { HaveTurnRoom fronts.now order.now (length outside.old) }
    requires within { Within (net_of fronts.now) fronts.now.kids.now flags.old }
    ensures { Sliced (net_of fronts.now) target fronts.now.kids.now flags.old fronts.now.m flags.new }
{
    let outputs = fronts.padded_outputs();
    let network = fronts.network(&outputs);
    let tree = fronts.tree();
    crate::slice(outside, flags, &network, &tree, order, target);
}
