// The words of a line.
use netfile::{Ask, Given};
use network::Network;
use std::io::{self, Write};

// Stays: `out: &mut W, network: &Network`: where a line goes, and what it is about.
// Stays: `network: &Network, given: Given`: what was read of one file; the reader hands out both apart.

fn tree_places<W: Write>(out: &mut W, tree: Option<usize>) -> io::Result<()> {
    match tree {
        None => write!(out, " tree -"),
        Some(n) => write!(out, " tree {n}"),
    }
}

fn asked<W: Write>(out: &mut W, ask: Ask) -> io::Result<()> {
    match ask {
        Ask::Plain => write!(out, " flags - target -"),
        Ask::Flagged(n) => write!(out, " flags {n} target -"),
        Ask::Target(bits) => write!(out, " flags - target {bits}"),
    }
}

/// What was read.
pub(crate) fn read<W: Write>(out: &mut W, network: &Network, given: Given) -> io::Result<()> {
    let (leaves, indices, outputs) = (
        network.leaf_count,
        network.index_count,
        network.output_count,
    );
    write!(out, "read {leaves} {indices} {outputs}")?;
    tree_places(out, given.tree)?;
    asked(out, given.ask)
}
