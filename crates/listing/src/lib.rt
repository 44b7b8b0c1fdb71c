#![tactic(auto)]
// The listing of a priced tree as bytes: a head, and ten bytes a step; of a network in memory, and of a file.
ghost use Rattle.std.specs.Prelude.{◌≡◌, ◌≤◌, ◌*◌, length, take, unwrap_or};
ghost use Rattle.spec.specs.Memory.{placed};
ghost use Rattle.spec.specs.Host.{two_each, head_bytes, listing_call, host_call, Answered};
ghost use Rattle.network.specs.Record.{net_of};
ghost use Rattle.netfile.specs.Answers.{flag_count};
ghost use Rattle.spec.specs.Refusal.{code_of};
ghost use Rattle.spec.specs.FileClaims.{refusal_in};
ghost use Rattle.listing.specs.Listing.{FullRoom, Tells};

pub mod bytes; // bytes.rt: numbers as bytes, high byte first
pub mod head; // head.rt: the listing's head

use netfile::Given;
use network::Network;
use pricing::list::PriceList;
use spec::{Prices, Refusal};

// Writes the head, and ten bytes for each of n steps.
// Stays: `n` steps stand in a listing that is longer, five numbers each; at most 127, which no type of a `usize` says.
fn put_listing(out: &mut [u8], n: usize, prices: &Prices, steps: &[u16])
    requires { (n ≤ 127) × (n * 5 ≤ length steps.now) }
    ensures { out.new ≡ placed (placed out.old 0 (head_bytes n prices.now)) 16 (two_each (take (n * 5) steps.now)) }
{
    let end = n * 5;
    head::put_head(out, n as u16, prices);
    bytes::put_each(out, 16, &steps[..end]);
}

// With the lists that pricing fills.
// Stays: workspace, price list and listing are arrays of the one caller, whose memory is fixed.
fn list_with(
    network: &Network,
    flags: &[u8],
    kids: &[u16],
    ws: &mut [u64],
    list: &mut PriceList,
    steps: &mut [u16],
    out: &mut [u8],
) -> Result<(), Refusal>
    requires leaves { network.now.leaf_count ≤ 128 }
    requires room { FullRoom ws.old list.old.sets.now list.old.sizes.now list.old.works.now steps.old }
    ensures { Tells (listing_call (length out.old) (net_of network.now) flags.now kids.now) result out.old out.new }
{
    let n = network.leaf_count.saturating_sub(1);
    if out.len() < 16 + n * 10 {
        return Err(Refusal::ShortBuffer);
    }
    let prices = cost::tree_cost(network, flags, kids, ws, list, steps)?;
    put_listing(out, n, &prices, steps);
    Ok(())
}

/// Prices the tree `kids` of a network with the given flags, with lists of its own, and writes the listing to the front of `out`: a head of 16 bytes,
/// and ten bytes a step. `ShortBuffer` for `out` comes first, then pricing's refusals.
// Stays: memory is fixed: the lists of the price list are arrays here, of one length where nodes have an entry each.
pub fn list(network: &Network, flags: &[u8], kids: &[u16], out: &mut [u8]) -> Result<(), Refusal>
    requires { network.now.leaf_count ≤ 128 }
    ensures { Tells (listing_call (length out.old) (net_of network.now) flags.now kids.now) result out.old out.new }
{
    let mut ws = [0u64; 4096];
    let mut sets = [0u64; 1020];
    let mut sizes = [0u16; 255];
    let mut works = [0u16; 255];
    let mut steps = [0u16; 635];
    let mut list = PriceList {
        sets: &mut sets,
        sizes: &mut sizes,
        works: &mut works,
    };
    list_with(network, flags, kids, &mut ws, &mut list, &mut steps, out)
}

// Lists a network with the tree and the flags that its file has.
// Stays: the reader has put both into arrays of its caller, the tree as a flat list; a record that was read has few leaves.
fn price_given(
    network: &Network,
    given: &Given,
    tree: &[u16],
    flags: &[u8],
    out: &mut [u8],
) -> Result<(), Refusal>
    requires { (network.now.leaf_count ≤ 128) × (unwrap_or given.now.tree 0 ≤ length tree.now) × (flag_count given.now.ask ≤ length flags.now) }
    ensures { Tells (listing_call (length out.old) (net_of network.now) (take (flag_count given.now.ask) flags.now) (take (unwrap_or given.now.tree 0) tree.now)) result out.old out.new }
{
    let places = given.tree.unwrap_or(0);
    let count = netfile::flag_count(given.ask);
    list(network, &flags[..count], &tree[..places], out)
}

/// Reads the file, and lists its network with its own tree and flags. The reader's refusals come first, then those of `list`.
// Stays: what is read and what is written, lent by a host for this one call.
pub fn price_file(file: &[u8], out: &mut [u8]) -> Result<(), Refusal>
    ensures { Tells (host_call (length out.old) file.now) result out.old out.new }
{
    let mut tree = [0u16; 254];
    let mut flags = [0u8; 256];
    let mut network = Network::empty();
    let given = netfile::read_network(file, &mut network, &mut tree, &mut flags)?;
    price_given(&network, &given, &tree, &flags, out)
}
