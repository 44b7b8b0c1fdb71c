#![tactic(auto)]
//! The program `plan` as one function: from a network file's bytes to the text that is printed.
ghost use Rattle.std.specs.Prelude.{true, ◌≡◌, ◌≤◌, length, take, Ok};
ghost use Rattle.spec.specs.Memory.{over};
ghost use Rattle.spec.specs.Network.{accepted};
ghost use Rattle.spec.specs.Calls.{tree_places};
ghost use Rattle.spec.specs.File.{target};
ghost use Rattle.spec.specs.Program.{flags_of, slice_for, plan_of, printed, program};
ghost use Rattle.spec.specs.Slicing.{Plan};
ghost use Rattle.spec.specs.Text.{plan_text};
ghost use Rattle.spec.specs.Output.{program_on, plan_bytes};
ghost use Rattle.network.specs.Record.{net_of};
ghost use Rattle.text.specs.Lists.{printed_from};
ghost use Rattle.putfields.specs.Put.{Put};
ghost use Rattle.netfile.specs.Answers.{flag_count};
ghost use Rattle.netfile.specs.Writer.{ask_handed};
ghost use Rattle.planning.specs.Output.{Prints};
ghost use Rattle.planning.specs.Printing.{Tells, Printable};
ghost use Rattle.planning.specs.Stages.{FlagsHeld, PlanHeld, Answers, Ready, given_tree, FoundIn, Started, ImprovedTo, improved_in, ImprovedHeld};

use netfile::{Ask, Given};
use network::Network;
use pricing::list::PriceList;
use reconf::Visited;
use spec::{Prices, Refusal};
use steplines::digits::Text;
use steplines::listed::Listed;
use text::Printout;

// Stays: `file: &[u8], out: &mut [u8]`: what is read and what is written, by the program's one function and the one below it.
// Stays: `network: &Network, given: Given`: what was read of one file; the reader hands out both apart.
// Stays: `tree: &mut [u16], flags: &mut [u8]`: two lists that each stage writes in turn; as fields of one value each contract says that it lends them still.
// Stays: `Ready (net_of network.now) (length flags.old)`: of two values, an accepted record and lent flags that fit it; neither holds the other.
// Stays: `length tree.old ≡ tree_places (net_of network.now)`: of two values, a record and a lent list; a stage may change the list.
// Stays: `result ≤ 131072`: a bound of a number, which a caller's buffer is made by.

// Stays: the list gets a tree here, or has one that improvement checks.
// The tree that is improved: the given one, or greedy's.
fn start(network: &Network, given: Option<usize>, tree: &mut [u16]) -> Result<(), Refusal>
    requires { length tree.old ≡ tree_places (net_of network.now) }
    ensures { Started (net_of network.now) (given_tree given tree.old) tree.new result }
{
    match given {
        Some(_) => Ok(()),
        None => {
            let mut ws = [0u64; 4096];
            greedy::plan(network, tree, &mut ws)
        }
    }
}

// Stays: improvement checks the tree, and changes it where it lies.
// Improves a tree, with the given flags.
fn improve(network: &Network, ask: Ask, tree: &mut [u16], flags: &[u8]) -> Result<Visited, Refusal>
    requires { (accepted (net_of network.now) ≡ true) × (flag_count ask ≤ length flags.now) }
    ensures { ImprovedTo (net_of network.now) (ask_handed ask flags.now) tree.old tree.new result }
{
    let mut ws = [0u64; 6144];
    let count = netfile::flag_count(ask);
    let asked = reconfigure::Ask {
        flags: &flags[..count],
        k: 8,
        passes: 4,
        limit: None,
    };
    reconfigure::improve(network, &asked, tree, &mut ws)
}

// Stays: slicing checks the tree, and changes it where it lies.
// Slices the improved tree to a target, with improvement; the counts are added to those so far.
fn slice_to(
    network: &Network,
    bits: u8,
    counts: Visited,
    tree: &mut [u16],
    flags: &mut [u8],
) -> Result<Visited, Refusal>
    requires { Ready (net_of network.now) (length flags.old) × ImprovedHeld (net_of network.now) tree.old counts }
    ensures { Answers (net_of network.now) (slice_for (net_of network.now) (target bits) (improved_in tree.old counts)) tree.new flags.new result }
{
    let mut ws = [0u64; 6144];
    let more = slicetree::slice(network, true, tree, u16::from(bits), flags, &mut ws)?;
    Ok(Visited {
        rebuilt: counts.rebuilt + more.rebuilt,
        tried: counts.tried + more.tried,
    })
}

// Stays: the tree is changed where it lies, and slicing checks it.
// Slices where the file has a target; else the plan stands, with the given flags.
fn slice(
    network: &Network,
    ask: Ask,
    counts: Visited,
    tree: &mut [u16],
    flags: &mut [u8],
) -> Result<Visited, Refusal>
    requires { Ready (net_of network.now) (length flags.old) × ImprovedHeld (net_of network.now) tree.old counts × FlagsHeld (net_of network.now) (flags_of (ask_handed ask flags.old)) flags.old }
    ensures { Answers (net_of network.now) (slice_for (net_of network.now) (ask_handed ask flags.old) (improved_in tree.old counts)) tree.new flags.new result }
{
    match ask {
        Ask::Plain => Ok(counts),
        Ask::Flagged(_) => Ok(counts),
        Ask::Target(bits) => slice_to(network, bits, counts, tree, flags),
    }
}

// Stays: the list holds a tree or none, as the file says, and the plan in the end.
// The plan of a network, from the given tree or from greedy's: improved with the given flags, and sliced.
fn plan_network(
    network: &Network,
    given: Given,
    tree: &mut [u16],
    flags: &mut [u8],
) -> Result<Visited, Refusal>
    requires { Ready (net_of network.now) (length flags.old) × FlagsHeld (net_of network.now) (flags_of (ask_handed given.ask flags.old)) flags.old × (flag_count given.ask ≤ length flags.old) × (length tree.old ≡ tree_places (net_of network.now)) }
    ensures { Answers (net_of network.now) (plan_of (net_of network.now) (given_tree given.tree tree.old) (ask_handed given.ask flags.old)) tree.new flags.new result }
{
    start(network, given.tree, tree)?;
    let counts = improve(network, given.ask, tree, flags)?;
    slice(network, given.ask, counts, tree, flags)
}

// Puts the text of a plan that is priced at the front of a buffer, and answers its length.
// Stays: the lists apart. A `Printout` made of local lists beside lent flags is refused by the borrow checker, so the three
// lists come under one lifetime.
fn put_text<'a>(
    network: &Network,
    prices: Prices,
    steps: &'a [u16],
    sets: &'a [u64],
    flags: &'a [u8],
    counts: Visited,
    out: &mut [u8],
) -> usize
    requires { (network.now.leaf_count ≤ 128) × (network.now.index_count ≤ 256) }
    ensures { Put out.old out.new 0 result (plan_text (printed_from network.now.leaf_count network.now.index_count 4 prices steps.now sets.now flags.now counts.rebuilt counts.tried)) × (result ≤ 131072) }
{
    let listed = Listed {
        steps,
        sets,
        width: 4,
        index_count: network.index_count,
    };
    let plan = Printout {
        leaf_count: network.leaf_count,
        listed,
        prices,
        flags,
        rebuilt: counts.rebuilt,
        tried: counts.tried,
    };
    let mut text = Text::new(out);
    plan.put(&mut text);
    text.len()
}

// Stays: lists of different meaning, lent to pricing and to the text; pricing checks the tree.
// Puts the text of a plan at the front of a buffer, and answers its length: prices it in local lists, which refuses nothing.
fn put_plan(
    network: &Network,
    counts: Visited,
    tree: &[u16],
    flags: &[u8],
    out: &mut [u8],
) -> Result<usize, Refusal>
    requires { Printable (net_of network.now) tree.now flags.now }
    ensures { (p : Plan) → PlanHeld (net_of network.now) p tree.now flags.now → p.rebuilt ≡ counts.rebuilt → p.tried ≡ counts.tried → Tells (Ok (printed (net_of network.now) p)) out.old out.new result }
{
    let mut ws = [0u64; 4096];
    let mut sets = [0u64; 1020];
    let mut sizes = [0u16; 255];
    let mut works = [0u16; 255];
    let mut steps = [0u16; 635];
    let mut list = PriceList {
        sets: &mut sets,
        sizes: &mut sizes,
        works: &mut works,
    };
    let prices = cost::tree_cost(network, flags, tree, &mut ws, &mut list, &mut steps)?;
    Ok(put_text(network, prices, &steps, list.sets, flags, counts, out))
}

// Stays: the list holds a tree or none, as the file says, and the plan in the end.
// Plans, and puts the text of the plan at the front of a buffer.
fn put_planned(
    network: &Network,
    given: Given,
    tree: &mut [u16],
    flags: &mut [u8],
    out: &mut [u8],
) -> Result<usize, Refusal>
    requires { Ready (net_of network.now) (length flags.old) × FlagsHeld (net_of network.now) (flags_of (ask_handed given.ask flags.old)) flags.old × (flag_count given.ask ≤ length flags.old) × (length tree.old ≡ tree_places (net_of network.now)) }
    ensures { Tells (program (net_of network.now) (given_tree given.tree tree.old) (ask_handed given.ask flags.old)) out.old out.new result }
{
    let counts = plan_network(network, given, tree, flags)?;
    put_plan(network, counts, tree, &flags[..network.index_count], out)
}

// Stays: two places for each inner node of the file's network, at the front of a list as long as any tree.
// Plans what was found in a file: its network, the tree at the front of `tree`, if there is one, and the given flags.
fn put_found(
    network: &Network,
    given: Given,
    tree: &mut [u16],
    flags: &mut [u8],
    out: &mut [u8],
) -> Result<usize, Refusal>
    requires { FoundIn (net_of network.now) given tree.old flags.old }
    ensures { Tells (program (net_of network.now) (given_tree given.tree (take (tree_places (net_of network.now)) tree.old)) (ask_handed given.ask flags.old)) out.old out.new result }
{
    let places = network.leaf_count.saturating_sub(1) * 2;
    put_planned(network, given, &mut tree[..places], flags, out)
}

// Reads a file and plans what it has: the length of the plan's text, which is at the front of `out`, or the refusal.
fn plan_file(file: &[u8], out: &mut [u8]) -> Result<usize, Refusal>
    ensures { Tells (program_on file.now) out.old out.new result }
{
    let mut tree = [0u16; 254];
    let mut flags = [0u8; 256];
    let mut network = Network::empty();
    let given = netfile::read_network(file, &mut network, &mut tree, &mut flags)?;
    put_found(&network, given, &mut tree, &mut flags, out)
}

/// The program `plan`: reads a network file, plans, and puts what is printed at the front of `out`. The answer is the text's length; a buffer
/// that is shorter gets the text's front. No text is longer than 131,072 bytes.
pub fn plan(file: &[u8], out: &mut [u8]) -> usize
    ensures bytes { out.new ≡ over out.old (plan_bytes file.now) }
    ensures count { (result ≡ length (plan_bytes file.now)) × (result ≤ 131072) }
    ensures sound { result ≤ length out.old → Prints file.now (take result out.new) }
{
    match plan_file(file, out) {
        Ok(len) => len,
        Err(refusal) => text::put_refusal(out, refusal),
    }
}
