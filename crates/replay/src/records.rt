// A stored file priced with its steps as records, in words.
// Stays: `out: &mut W, file: &[u8]`, `out: &mut W, network: &Network`: where a call writes and what it reads, lent for that call alone.

use netfile::Given;
use network::Network;
use pricing::list::PriceList;
use std::io::{self, Write};
use steps::Step;
use stored::sums::with_all;

// The sum over the numbers of all records.
fn sum(records: &[Step]) -> u64 {
    let mut s = 0;
    for step in records {
        let numbers = [step.node, step.left, step.right, step.work, step.size];
        s = with_all(s, &numbers);
    }
    s
}

// Stays: sizes and works are lists of one length that the price list keeps apart.
// Prices a tree into records that stand at numbers no step has.
fn price<W: Write>(out: &mut W, network: &Network, flags: &[u8], tree: &[u16]) -> io::Result<()> {
    let mut ws = [0u64; 4096];
    let mut sets = [0u64; 1020];
    let mut sizes = [0u16; 255];
    let mut works = [0u16; 255];
    let unset = Step {
        node: 65535,
        left: 65534,
        right: 65533,
        work: 65532,
        size: 65531,
    };
    let mut records = [unset; 127];
    let mut list = PriceList {
        sets: &mut sets,
        sizes: &mut sizes,
        works: &mut works,
    };
    let answer = steps::step_records(network, flags, tree, &mut ws, &mut list, &mut records);
    if let Err(refusal) = answer {
        write!(out, " refused {}", refusal.number())?;
    }
    let sum = sum(&records);
    write!(out, " {sum}")
}

// The tree that was found in a file, under the flags that were.
// Stays: the reader has put both into arrays of its caller, the tree as a flat list.
fn price_given<W: Write>(
    out: &mut W,
    network: &Network,
    given: Given,
    flags: &[u8],
    tree: &[u16],
) -> io::Result<()> {
    let places = given.tree.unwrap_or(0).min(tree.len());
    let count = netfile::flag_count(given.ask).min(flags.len());
    price(out, network, &flags[..count], &tree[..places])
}

/// What pricing with records answers of a file.
pub(crate) fn write<W: Write>(out: &mut W, file: &[u8]) -> io::Result<()> {
    let mut network = Network::empty();
    let mut tree = [0u16; 254];
    let mut flags = [0u8; 256];
    write!(out, " records")?;
    match netfile::read_network(file, &mut network, &mut tree, &mut flags) {
        Ok(given) => price_given(out, &network, given, &flags, &tree),
        Err(refusal) => write!(out, " file refused {}", refusal.number()),
    }
}
