// Slices trees of stored networks.
ghost use Rattle.std.specs.Prelude.{◌≤◌};

use network::Network;
use reconf::Visited;
use spec::Refusal;
use std::io::{self, Read, Write};

// Stays: `input: &mut R, out: &mut W`: what a question reads and what it writes.
// Stays: `out: &mut W, network: &Network`: where a line goes, and what it is about.

// Stays: the tree is what slicing left in the list that was lent.
// Both counts, the tree and the flagged indices, or the number of the refusal.
fn tell<W: Write>(
    out: &mut W,
    sliced: Result<Visited, Refusal>,
    tree: &[u16],
    flags: &[u8],
) -> io::Result<()> {
    match sliced {
        Err(refusal) => write!(out, "refused {}", refusal.number()),
        Ok(counts) => {
            write!(out, "sliced {} {}", counts.rebuilt, counts.tried)?;
            stored::write_numbers(out, tree)?;
            write!(out, " flags")?;
            stored::write_flagged(out, flags)
        }
    }
}

// Stays: the tree comes from outside; slicing checks it.
// Slices the tree to a target, with improvement or without.
fn slice<W: Write>(
    out: &mut W,
    network: &Network,
    tree: &mut [u16],
    improving: bool,
    target: u16,
) -> io::Result<()> {
    let mut flags = [0u8; 256];
    let mut ws = [0u64; 6144];
    let indices = network.index_count.min(256);
    let sliced = slicetree::slice(network, improving, tree, target, &mut flags, &mut ws);
    tell(out, sliced, tree, &flags[..indices])
}

// Stays: the remainder is below the cast's limit.
/// One question: two bytes that are 0 where no improvement is asked, two of the target, a network and a tree.
pub(crate) fn answer_next<R: Read, W: Write>(input: &mut R, out: &mut W) -> io::Result<()> {
    let mut tree = [0u16; 512];
    let question = stored::next_number(input);
    let (improving, target) = (question / 65536 != 0, (question % 65536) as u16);
    let network = stored::next_network(input, out);
    let places = stored::next_tree(input, &mut tree);
    slice(out, &network, &mut tree[..places], improving, target)?;
    writeln!(out)
}
