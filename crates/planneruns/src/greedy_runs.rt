// Plans stored network files by greedy and writes a line for each.
// The form of input and output is stated in harness/src/greedy/record.rs, which makes both.
use network::Network;
use std::io::{self, Read, Write};

// Stays: `input: &mut R, out: &mut W`: what a case reads and what it writes.

// Stays: a tree has two places for each leaf but one; the list has room for any tree, and its front is the one that was planned.
// The plan of a network, or the number of the refusal.
fn plan<W: Write>(out: &mut W, network: &Network) -> io::Result<()> {
    let mut tree = [0u16; 254];
    let mut ws = [0u64; 4096];
    let places = (network.leaf_count % 256).saturating_sub(1) * 2;
    match greedy::plan(network, &mut tree, &mut ws) {
        Err(refusal) => write!(out, "refused {}", refusal.number())?,
        Ok(()) => {
            write!(out, "plan")?;
            stored::write_numbers(out, &tree[..places.min(254)])?;
        }
    }
    writeln!(out)
}

// Stays: a case of its own form; it reads a network and writes a line.
/// One case: the network, and its plan.
pub(crate) fn next_case<R: Read, W: Write>(input: &mut R, out: &mut W) -> io::Result<()> {
    let network = stored::next_network(input, out);
    plan(out, &network)
}
