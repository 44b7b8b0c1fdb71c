#![tactic(auto)]
//! The functions that a C host calls: a file's bytes priced, a file planned, a network in memory priced, its greedy plan, its plan by bisection, a tree
//! of it improved, a tree of it sliced.
ghost use Rattle.std.specs.Prelude.{◌≡◌, ◌≤◌, length, take};
ghost use Rattle.spec.specs.Memory.{over};
ghost use Rattle.spec.specs.Refusal.{code_of};
ghost use Rattle.spec.specs.FileClaims.{refusal_in};
ghost use Rattle.spec.specs.Host.{host_call, Answered, lent_network, limit_number, improving_number};
ghost use Rattle.spec.specs.Output.{plan_bytes};
ghost use Rattle.host.specs.Sound.{HandsOut};
ghost use Rattle.memory.specs.Promise.{MemoryCost};
ghost use Rattle.host.specs.Greedy.{MemoryGreedy};
ghost use Rattle.host.specs.Bisection.{MemoryBisects};
ghost use Rattle.host.specs.Reconfigure.{MemoryReconfigures};
ghost use Rattle.host.specs.Slice.{MemorySlices};
ghost use Rattle.planning.specs.Output.{Prints};

mod calls; // calls.rt: the calls on a network whose lists are lent

use memory::Lists;
use pricing::list::PriceList;
use reconfigure::Ask;
use spec::Refusal;

// The number that the host is handed: 0, or the refusal's.
fn status(answer: Result<(), Refusal>) -> u32
    ensures { result ≡ code_of (refusal_in answer) }
{
    match answer {
        Ok(()) => 0,
        Err(refusal) => u32::from(refusal.number()),
    }
}

/// Reads the file, and lists its network with its own tree and flags.
// Stays: the C interface: a host calls it with these parameters.
#[unsafe(no_mangle)]
pub extern "C" fn loqshyber_price(file: &[u8], out: &mut [u8]) -> u32
    ensures { Answered (host_call (length out.old) file.now) result out.old out.new
        × (result ≡ 0 → HandsOut file.now out.old out.new) }
{
    status(listing::price_file(file, out))
}

/// Prices a tree of the network, into lists that are lent.
// Stays: the C interface: a host calls it with these parameters.
#[unsafe(no_mangle)]
pub extern "C" fn loqshyber_tree_cost(
    weights: &[u8],
    leg_counts: &[u8],
    legs: &[u16],
    outputs: &[u16],
    flags: &[u8],
    tree: &[u16],
    ws: &mut [u64],
    sets: &mut [u64],
    sizes: &mut [u16],
    works: &mut [u16],
    steps: &mut [u16],
    answer: &mut [u64],
) -> u32
    ensures { MemoryCost (lent_network weights.now leg_counts.now legs.now outputs.now) flags.now tree.now
        ws.old sets.old sizes.old works.old steps.old answer.old
        ws.new sets.new sizes.new works.new steps.new answer.new result }
{
    let mut list = PriceList { sets, sizes, works };
    let lists = Lists {
        weights,
        leg_counts,
        legs,
        outputs,
    };
    status(memory::price(&lists, flags, tree, ws, &mut list, steps, answer))
}

/// The greedy plan of the network, to the front of `tree`.
// Stays: the C interface: a host calls it with these parameters.
#[unsafe(no_mangle)]
pub extern "C" fn loqshyber_greedy(
    weights: &[u8],
    leg_counts: &[u8],
    legs: &[u16],
    outputs: &[u16],
    tree: &mut [u16],
    ws: &mut [u64],
) -> u32
    ensures { MemoryGreedy (lent_network weights.now leg_counts.now legs.now outputs.now)
        tree.old ws.old tree.new ws.new result }
{
    let lists = Lists {
        weights,
        leg_counts,
        legs,
        outputs,
    };
    status(calls::plan(&lists, tree, ws))
}

/// The plan of the network by bisection, to the front of `tree`; how many words were taken, to the front of `answer`.
// Stays: the C interface: a host calls it with these parameters.
#[unsafe(no_mangle)]
pub extern "C" fn loqshyber_bisection(
    weights: &[u8],
    leg_counts: &[u8],
    legs: &[u16],
    outputs: &[u16],
    draws: &[u64],
    tree: &mut [u16],
    ws: &mut [u64],
    answer: &mut [u64],
    imbalance: usize,
    cutoff: usize,
) -> u32
    ensures { MemoryBisects (lent_network weights.now leg_counts.now legs.now outputs.now) imbalance cutoff
        draws.now tree.old ws.old answer.old tree.new ws.new answer.new result }
{
    let lists = Lists {
        weights,
        leg_counts,
        legs,
        outputs,
    };
    status(calls::bisect(&lists, imbalance, cutoff, draws, tree, ws, answer))
}

/// Improves a tree of the network where it stands; the two counts, to the front of `answer`.
// Stays: the C interface: a host calls it with these parameters.
#[unsafe(no_mangle)]
pub extern "C" fn loqshyber_reconfigure(
    weights: &[u8],
    leg_counts: &[u8],
    legs: &[u16],
    outputs: &[u16],
    flags: &[u8],
    tree: &mut [u16],
    ws: &mut [u64],
    answer: &mut [u64],
    k: usize,
    passes: usize,
    limit: u32,
) -> u32
    ensures { MemoryReconfigures (lent_network weights.now leg_counts.now legs.now outputs.now) k passes (limit_number limit)
        flags.now tree.old ws.old answer.old tree.new ws.new answer.new result }
{
    let lists = Lists {
        weights,
        leg_counts,
        legs,
        outputs,
    };
    let limit = calls::limit_of(limit);
    let ask = Ask {
        flags,
        k,
        passes,
        limit,
    };
    status(calls::improve(&lists, &ask, tree, ws, answer))
}

/// Slices a tree of the network to a target, improved where it stands unless `improving` is 0; the two counts, to the front of `answer`.
// Stays: the C interface: a host calls it with these parameters.
#[unsafe(no_mangle)]
pub extern "C" fn loqshyber_slice_tree(
    weights: &[u8],
    leg_counts: &[u8],
    legs: &[u16],
    outputs: &[u16],
    tree: &mut [u16],
    flags: &mut [u8],
    ws: &mut [u64],
    answer: &mut [u64],
    improving: u32,
    target: u16,
) -> u32
    ensures { MemorySlices (lent_network weights.now leg_counts.now legs.now outputs.now) (improving_number improving) target
        tree.old flags.old ws.old answer.old tree.new flags.new ws.new answer.new result }
{
    let lists = Lists {
        weights,
        leg_counts,
        legs,
        outputs,
    };
    status(calls::slice(&lists, improving != 0, tree, target, flags, ws, answer))
}

/// The program `plan`: the text for a file's bytes to the front of `out`, and its length. A buffer that is shorter gets the text's front.
// Stays: the C interface: a host calls it with these parameters, and makes a buffer of the length that is stated.
#[unsafe(no_mangle)]
pub extern "C" fn loqshyber_plan(file: &[u8], out: &mut [u8]) -> usize
    ensures bytes { out.new ≡ over out.old (plan_bytes file.now) }
    ensures count { (result ≡ length (plan_bytes file.now)) × (result ≤ 131072) }
    ensures sound { result ≤ length out.old → Prints file.now (take result out.new) }
{
    planning::plan(file, out)
}
