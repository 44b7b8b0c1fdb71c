// The calls on a network whose lists are lent: its plans, a tree of it improved, a tree of it sliced.
ghost use Rattle.std.specs.Prelude.{◌≡◌, ◌∷◌, [], ◌<◌, ◌≤◌, length, Some, IfOk, IfErr, OnOk, unwrap_or};
ghost use Rattle.spec.specs.Memory.{over};
ghost use Rattle.spec.specs.Refusal.{code_of};
ghost use Rattle.spec.specs.FileClaims.{refusal_in};
ghost use Rattle.spec.specs.declared.Refusal.TheVariants.{ShortBuffer};
ghost use Rattle.spec.specs.Network.{refusal_of};
ghost use Rattle.spec.specs.Host.{limit_number};
ghost use Rattle.network.specs.Record.{net_of};
ghost use Rattle.memory.specs.Lists.{net_lent};
ghost use Rattle.host.specs.Greedy.{MemoryGreedy};
ghost use Rattle.host.specs.Bisection.{MemoryBisects};
ghost use Rattle.host.specs.Reconfigure.{MemoryReconfigures};
ghost use Rattle.host.specs.Slice.{MemorySlices};

use memory::Lists;
use network::Network;
use reconf::Visited;
use reconfigure::Ask;
use spec::Refusal;

// Refuses an answer of fewer places than it takes; the network's own refusals come first.
fn check_room(network: &Network, places: usize, takes: usize) -> Result<(), Refusal>
    ensures ok { OnOk result (takes ≤ places) }
    ensures err { IfErr result (λ r. (places < takes) × (r ≡ unwrap_or (refusal_of (net_of network.now)) ShortBuffer)) }
{
    if takes <= places {
        return Ok(());
    }
    network.accepted()?;
    Err(Refusal::ShortBuffer)
}

// The greedy plan.
// Stays: the C interface lends tree and workspace apart, the tree as a flat list.
pub fn plan(lists: &Lists, tree: &mut [u16], ws: &mut [u64]) -> Result<(), Refusal>
    ensures { MemoryGreedy (net_lent lists.now)
        tree.old ws.old tree.new ws.new (code_of (refusal_in result)) }
{
    lists.check_limits()?;
    let network = memory::record_of(lists);
    greedy::plan(&network, tree, ws)
}

// The plan by bisection; how many words were taken, to the front of `answer`.
// Stays: seven parameters, as the C function hands them on; its four lists of the network are one already.
pub fn bisect(
    lists: &Lists,
    imbalance: usize,
    cutoff: usize,
    draws: &[u64],
    tree: &mut [u16],
    ws: &mut [u64],
    answer: &mut [u64],
) -> Result<(), Refusal>
    ensures { MemoryBisects (net_lent lists.now) imbalance cutoff
        draws.now tree.old ws.old answer.old tree.new ws.new answer.new (code_of (refusal_in result)) }
{
    if imbalance > 1000 {
        return Err(Refusal::TooLarge);
    }
    lists.check_limits()?;
    let network = memory::record_of(lists);
    check_room(&network, answer.len(), 1)?;
    let taken = bisection::plan(&network, imbalance, cutoff, draws, tree, ws)?;
    // Stays: u64 has no From<usize>, and TryFrom would add an error that never comes.
    cells::put(answer, 0, taken as u64);
    Ok(())
}

// The limit that a number stands for: none from 65,536 on.
// Stays: the C interface has a limit in 32 bits; the one of `planneruns` is a stored number, with 65,535 for none.
pub fn limit_of(x: u32) -> Option<u16>
    ensures { result ≡ limit_number x }
{
    u16::try_from(x).ok()
}

// Writes the two numbers.
fn put_counts(answer: &mut [u64], counts: Visited)
    ensures { answer.new ≡ over answer.old (counts.rebuilt ∷ counts.tried ∷ []) }
{
    let numbers = [counts.rebuilt, counts.tried];
    cells::copy(answer, &numbers, 2);
}

// Improves a tree where it stands; the two counts, to the front of `answer`.
// Stays: the C interface lends tree, workspace and answer apart, the tree as a flat list.
pub fn improve(
    lists: &Lists,
    ask: &Ask,
    tree: &mut [u16],
    ws: &mut [u64],
    answer: &mut [u64],
) -> Result<(), Refusal>
    ensures { MemoryReconfigures (net_lent lists.now)
        ask.now.k ask.now.passes ask.now.limit ask.now.flags.now tree.old ws.old answer.old tree.new ws.new answer.new (code_of (refusal_in result)) }
{
    if ask.passes > 255 {
        return Err(Refusal::TooLarge);
    }
    lists.check_limits()?;
    let network = memory::record_of(lists);
    check_room(&network, answer.len(), 2)?;
    let counts = reconfigure::improve(&network, ask, tree, ws)?;
    put_counts(answer, counts);
    Ok(())
}

// Slices a tree to a target, with improvement or without; the two counts, to the front of `answer`.
// Stays: seven parameters, as the C function hands them on; its four lists of the network are one already.
pub fn slice(
    lists: &Lists,
    improving: bool,
    tree: &mut [u16],
    target: u16,
    flags: &mut [u8],
    ws: &mut [u64],
    answer: &mut [u64],
) -> Result<(), Refusal>
    ensures { MemorySlices (net_lent lists.now) improving target
        tree.old flags.old ws.old answer.old tree.new flags.new ws.new answer.new (code_of (refusal_in result)) }
{
    lists.check_limits()?;
    let network = memory::record_of(lists);
    check_room(&network, answer.len(), 2)?;
    let made = slicetree::slice(&network, improving, tree, target, flags, ws)?;
    put_counts(answer, made);
    Ok(())
}
