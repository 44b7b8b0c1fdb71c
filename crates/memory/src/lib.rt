#![tactic(auto)]
// A network in memory, whose lists are lent whole: its record, its prices.
ghost use Rattle.std.specs.Prelude.{◌≡◌, true, false, ◌*◌, ◌≤◌, length, get_or, Some, IfErr, OnOk};
ghost use Rattle.spec.specs.Memory.{over};
ghost use Rattle.spec.specs.Network.{refusal_of, max_leaves, max_legs};
ghost use Rattle.spec.specs.Host.{lent_network, total_numbers, widest_number, price_numbers, memory_call};
ghost use Rattle.spec.specs.declared.Refusal.TheVariants.{TooLarge};
ghost use Rattle.network.specs.Record.{net_of};
ghost use Rattle.network.specs.Codes.{large_of};
ghost use Rattle.spec.specs.Refusal.{code_of};
ghost use Rattle.spec.specs.FileClaims.{refusal_in};
ghost use Rattle.network.specs.Lists.{HasRows};
ghost use Rattle.pricing.specs.Lists.{IsSameLoan};
ghost use Rattle.cost.specs.Answers.{told, room};
ghost use Rattle.memory.specs.Lists.{net_lent};
ghost use Rattle.memory.specs.Promise.{MemoryCost};

use network::{Accepted, Network, checks};
use pricing::list::PriceList;
use spec::{Prices, Refusal, Total};

/// A network's lists, as a host lends them: each whole, the indices of leaf i from place 32 i of `legs` on.
// Stays: the C interface lends each list apart, with a type of its own.
#[derive(Clone, Copy)]
pub struct Lists<'a> {
    pub weights: &'a [u8],
    pub leg_counts: &'a [u8],
    pub legs: &'a [u16],
    pub outputs: &'a [u16],
}

impl Lists<'_> {
    /// The check of the counts: refused where one is above its limit. The record of lists that pass is `record_of`.
    pub fn check_limits(&self) -> Result<(), Refusal>
        ensures ok { OnOk result (large_of (length self.now.weights.now) (length self.now.leg_counts.now) (length self.now.outputs.now) self.now.leg_counts.now ≡ false) }
        ensures err { IfErr result (λ r. (r ≡ TooLarge) × (refusal_of (net_lent self.now) ≡ Some TooLarge)) }
    {
        let large = too_large(self.weights.len(), self.outputs.len(), self.leg_counts);
        if large {
            return Err(Refusal::TooLarge);
        }
        Ok(())
    }
}

/// Is a count above its limit.
pub fn too_large(m: usize, o: usize, counts: &[u8]) -> bool
    ensures { result ≡ large_of m (length counts.now) o counts.now }
{
    checks::is_too_large(m, counts.len(), o, counts)
}

/// The record of lists of which no count is above its limit.
// Stays: a record holds arrays of fixed lengths, as there is no heap. It is handed out by itself: within a `Result` its 8.5 KiB were copied once more.
pub fn record_of(lists: &Lists) -> Network
    requires { large_of (length lists.now.weights.now) (length lists.now.leg_counts.now) (length lists.now.outputs.now) lists.now.leg_counts.now ≡ false }
    ensures { net_of result ≡ net_lent lists.now }
{
    let mut weights = [0u8; 256];
    let mut leg_counts = [0u8; 128];
    let mut legs = [0u16; 4096];
    let mut outputs = [0u16; 32];
    cells::copy(&mut weights, lists.weights, lists.weights.len());
    cells::copy(&mut leg_counts, lists.leg_counts, lists.leg_counts.len());
    cells::copy(&mut legs, lists.legs, lists.legs.len());
    cells::copy(&mut outputs, lists.outputs, lists.outputs.len());
    Network {
        index_count: lists.weights.len(),
        leaf_count: lists.leg_counts.len(),
        output_count: lists.outputs.len(),
        weights,
        leg_counts,
        legs,
        outputs,
    }
}

// 0 for an exact total, 1 for one that is beyond.
// Stays: the C interface has 0 and 1 for the two kinds of a total.
fn total_kind(total: Total) -> u64
    ensures { result ≡ get_or (total_numbers total) 0 0 }
{
    match total {
        Total::Exact(_) => 0,
        Total::Beyond => 1,
    }
}

// 0 without leaves, else one more than the size bits.
// Stays: the C interface has 0 for no table, and else one more than its bits.
fn widest_number(widest: Option<u16>) -> u64
    ensures { result ≡ widest_number widest }
{
    match widest {
        None => 0,
        Some(bits) => u64::from(bits) + 1,
    }
}

// Writes the four numbers.
fn put_answer(answer: &mut [u64], prices: &Prices)
    ensures { answer.new ≡ over answer.old (price_numbers prices.now) }
{
    let numbers = [
        total_kind(prices.total),
        cost::exact(prices.total),
        widest_number(prices.widest),
        u64::from(prices.slice_bits),
    ];
    cells::copy(answer, &numbers, 4);
}

// Prices a tree of the network, whose list of legs has all its places.
// Stays: the C interface lends each list apart; the network's four are one already.
fn price_lists(
    lists: &Lists,
    flags: &[u8],
    kids: &[u16],
    ws: &mut [u64],
    list: &mut PriceList,
    steps: &mut [u16],
    answer: &mut [u64],
) -> Result<(), Refusal>
    requires { HasRows lists.now.leg_counts.now lists.now.legs.now }
    ensures lent { IsSameLoan list.old list.new }
    ensures answer { result ≡ told (memory_call (length answer.old) (net_lent lists.now) (length ws.old) (room (length list.old.sets.now) (length list.old.sizes.now) (length list.old.works.now) (length steps.old)) flags.now kids.now) }
    ensures cost { MemoryCost (net_lent lists.now) flags.now kids.now
        ws.old list.old.sets.now list.old.sizes.now list.old.works.now steps.old answer.old
        ws.new list.new.sets.now list.new.sizes.now list.new.works.now steps.new answer.new (code_of (refusal_in result)) }
{
    let network = Accepted::of_lists(lists.weights, lists.leg_counts, lists.legs, lists.outputs)?;
    if answer.len() < 4 {
        return Err(Refusal::ShortBuffer);
    }
    let prices = cost::price_accepted(&network, flags, kids, ws, list, steps)?;
    put_answer(answer, &prices);
    Ok(())
}

// Is the list of legs too short for the places of `n` leaves.
fn short_of_legs(n: usize, legs: usize) -> bool
    ensures { (result ≡ true → legs ≤ 4096) × (result ≡ false → n ≤ max_leaves → n * max_legs ≤ legs) }
{
    if n > Network::MAX_LEAVES {
        return false;
    }
    legs < n * Network::MAX_LEGS
}

/// Prices the tree `kids` of a network in lists that are lent whole, with the given flags: the price list and the listing as `cost::tree_cost`,
/// and four numbers to the front of `answer`: 0 and the total or 1 and 0, 0 without leaves or one more than the widest table's bits, the slice
/// bits. A list of legs that ends early reads as 0 past its end. Refusals: the network's own, `ShortBuffer` for `answer`, then pricing's.
// Stays: the C interface lends each list apart; the network's four are one already.
pub fn price(
    lists: &Lists,
    flags: &[u8],
    kids: &[u16],
    ws: &mut [u64],
    list: &mut PriceList,
    steps: &mut [u16],
    answer: &mut [u64],
) -> Result<(), Refusal>
    ensures lent { IsSameLoan list.old list.new }
    ensures answer { result ≡ told (memory_call (length answer.old) (net_lent lists.now) (length ws.old) (room (length list.old.sets.now) (length list.old.sizes.now) (length list.old.works.now) (length steps.old)) flags.now kids.now) }
    ensures cost { MemoryCost (net_lent lists.now) flags.now kids.now
        ws.old list.old.sets.now list.old.sizes.now list.old.works.now steps.old answer.old
        ws.new list.new.sets.now list.new.sizes.now list.new.works.now steps.new answer.new (code_of (refusal_in result)) }
{
    if !short_of_legs(lists.leg_counts.len(), lists.legs.len()) {
        return price_lists(lists, flags, kids, ws, list, steps, answer);
    }
    let mut own_legs = [0u16; 4096];
    cells::copy(&mut own_legs, lists.legs, lists.legs.len());
    let whole = Lists {
        weights: lists.weights,
        leg_counts: lists.leg_counts,
        legs: &own_legs,
        outputs: lists.outputs,
    };
    price_lists(&whole, flags, kids, ws, list, steps, answer)
}
