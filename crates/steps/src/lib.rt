#![tactic(auto)]
// Steps as records: pricing's listing, put into a lent list of structs.
ghost use Rattle.std.specs.Prelude.{◌≡◌, ◌*◌, ◌<◌, ◌^◌};
ghost use Rattle.spec.specs.Memory.{over};
ghost use Rattle.network.specs.Record.{net_of};
ghost use Rattle.pricing.specs.Lists.{IsSameLoan};
ghost use Rattle.steps.specs.Records.{step_at, steps_of};
ghost use Rattle.steps.specs.Promise.{StepRecords};

// Stays: `IsSameLoan list.old list.new`: said of what a call hands back; a type says what holds of a value, not what a call left as it was.

use network::Network;
use pricing::list::PriceList;
use spec::{Prices, Refusal};

/// A step: its node, the children, work bits and size bits.
// Stays: the five numbers of a step; `partition::Place` has five numbers too, which say where a hypergraph lies.
#[derive(Clone, Copy, Debug, PartialEq, Eq)]
pub struct Step {
    pub node: u16,
    pub left: u16,
    pub right: u16,
    pub work: u16,
    pub size: u16,
}

// Step i of a listing of five numbers a step; 0 past its end.
// Stays: the listing is a flat list of five numbers a step, as the C interface lends it, and may end early.
fn step_at(numbers: &[u16], i: usize) -> Step
    requires { i * 10 < 2 ^ 64 }
    ensures { result ≡ step_at numbers.now i }
{
    let j = i * 5;
    Step {
        node: cells::get_or(numbers, j, 0),
        left: cells::get_or(numbers, j + 1, 0),
        right: cells::get_or(numbers, j + 2, 0),
        work: cells::get_or(numbers, j + 3, 0),
        size: cells::get_or(numbers, j + 4, 0),
    }
}

/// Puts the first `count` steps of a listing of five numbers a step into the lent records, as far as they go; the other records stay.
// Stays: `count` is how many steps are wanted, no length of a list: the listing may have more numbers or fewer, and reads as 0 past its end.
pub fn put_steps(steps: &mut [Step], numbers: &[u16], count: usize)
    ensures { steps.new ≡ over steps.old (steps_of numbers.now count) }
{
    let n = count.min(steps.len());
    for (i, place) in steps[..n].iter_mut().enumerate() {
        *place = step_at(numbers, i);
    }
}

/// Prices the tree `kids` of a network with the given flags, as `cost::tree_cost` does, and hands its steps out as records: one for each internal
/// node, in step order.
// Stays: the C interface lends flags, tree, workspace, price list and records apart, the tree as a flat list.
pub fn step_records(
    network: &Network,
    flags: &[u8],
    kids: &[u16],
    ws: &mut [u64],
    list: &mut PriceList,
    steps: &mut [Step],
) -> Result<Prices, Refusal>
    ensures lent { IsSameLoan list.old list.new }
    ensures records { StepRecords (net_of network.now) flags.now kids.now ws.old list.old.sets.now list.old.sizes.now list.old.works.now steps.old ws.new list.new.sets.now list.new.sizes.now list.new.works.now steps.new result }
{
    let network = network.accepted()?;
    let inner = network.leaf_count().saturating_sub(1);
    if steps.len() < inner {
        return Err(Refusal::ShortBuffer);
    }
    let mut numbers = [0u16; 635];
    let prices = cost::price_accepted(&network, flags, kids, ws, list, &mut numbers)?;
    put_steps(steps, &numbers, inner);
    Ok(prices)
}
