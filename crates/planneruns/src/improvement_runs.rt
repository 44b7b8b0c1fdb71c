// Improves the trees of stored network files and writes a line for each.
// The form of input and output is stated in harness/src/reconfigure/record.rs, which makes both.
ghost use Rattle.std.specs.Prelude.{◌≤◌};

use netfile::Given;
use network::Network;
use reconfigure::Ask;
use std::io::{self, Read, Write};

// Stays: `input: &mut R, out: &mut W`: what a case reads and what it writes.
// Stays: `out: &mut W, file: &[u8]`, `out: &mut W, network: &Network`: where a line goes, and what it is about.
// Stays: `network: &Network, flags: &[u8]`, `network: &Network, given: Given`: what was read of one file; the reader hands out each apart.

// What a case asks: k, how many passes, and the limit.
#[derive(Clone, Copy)]
struct Asked {
    k: usize,
    passes: usize,
    limit: Option<u16>,
}

// Stays: the tree is what a file gave, and is changed here; improvement checks it.
// The tree improved, or the number of the refusal.
fn improve<W: Write>(
    out: &mut W,
    network: &Network,
    flags: &[u8],
    tree: &mut [u16],
    asked: Asked,
) -> io::Result<()> {
    let mut ws = [0u64; 36864];
    let ask = Ask {
        flags,
        k: asked.k,
        passes: asked.passes,
        limit: asked.limit,
    };
    match reconfigure::improve(network, &ask, tree, &mut ws) {
        Err(refusal) => write!(out, "refused {}", refusal.number()),
        Ok(counts) => {
            write!(out, "improved {} {}", counts.rebuilt, counts.tried)?;
            stored::write_numbers(out, tree)
        }
    }
}

// Stays: the list is as long as any tree; the tree is its front.
// Improves the tree that was found in a file, under the flags that were.
fn improve_given<W: Write>(
    out: &mut W,
    network: &Network,
    given: Given,
    flags: &[u8],
    tree: &mut [u16],
    asked: Asked,
) -> io::Result<()> {
    let places = given.tree.unwrap_or(0).min(tree.len());
    let count = netfile::flag_count(given.ask).min(flags.len());
    improve(out, network, &flags[..count], &mut tree[..places], asked)
}

// Reads a network file, and improves its tree.
fn run<W: Write>(out: &mut W, file: &[u8], asked: Asked) -> io::Result<()> {
    let mut network = Network::empty();
    let mut tree = [0u16; 254];
    let mut flags = [0u8; 256];
    match netfile::read_network(file, &mut network, &mut tree, &mut flags) {
        Ok(given) => improve_given(out, &network, given, &flags, &mut tree, asked)?,
        Err(refusal) => write!(out, "file refused {}", refusal.number())?,
    }
    writeln!(out)
}

// Stays: a case of its own form; it reads a question and a file, and writes a line.
/// One case: what is asked, the file after it, and its tree improved. A limit of 65,535 is none.
pub(crate) fn next_case<R: Read, W: Write>(input: &mut R, out: &mut W) -> io::Result<()> {
    let mut bytes = [0u8; 131072];
    let number = stored::next_number(input);
    let count = stored::next_number(input);
    let n = stored::take(input, &mut bytes, count);
    let asked = Asked {
        k: number / 16777216,
        passes: number / 65536 % 256,
        limit: u16::try_from(number % 65536)
            .ok()
            .filter(|limit| *limit != u16::MAX),
    };
    run(out, &bytes[..n], asked)
}
