#![tactic(auto)]
// Reads cases of network files from standard input and writes a line for each: what the reader and the writer answer. Cases of additions follow.
// The form of input and output, and the sum of a case, are stated in harness/files.py, which makes both.
ghost use Rattle.std.specs.Prelude.{◌≤◌};

mod additions;
mod back;
mod say;
mod sums;

use network::Network;
use std::io::{self, Read, Write};
use stored::standard::{StandardInput, StandardOutput};

// Stays: `input: &mut R, out: &mut W`: what a run reads and what it writes; half of the functions here take one of them.
// Stays: `out: &mut W, file: &[u8]`: where a line goes, and what it is about; the file is no part of the output.
// Stays: `tree: &mut [u16], flags: &mut [u8]`: lists that a case lends in different lengths, of two types; together they are no value.

// Stays: the tree's list is lent as a case says, and holds marks where no tree is read.
// Reads the file into lists that hold marks, and tells what was read and what the writer makes of it.
fn run<W: Write>(out: &mut W, file: &[u8], tree: &mut [u16], flags: &mut [u8]) -> io::Result<()> {
    let mut network = Network::empty();
    match netfile::read_network(file, &mut network, tree, flags) {
        Ok(given) => {
            let sum = sums::of(&network, tree, flags);
            say::read(out, &network, given)?;
            write!(out, " sum {sum}")?;
            back::write(out, file, &network, given, tree, flags)
        }
        Err(refusal) => {
            let sum = sums::of(&network, tree, flags);
            write!(out, "refused {} sum {sum}", refusal.number())
        }
    }
}

// Stays: two lists of two types, of which a case lends different lengths.
// Lends as many places of the lists as the case says.
fn lend<W: Write>(
    out: &mut W,
    file: &[u8],
    tree_places: usize,
    flag_places: usize,
) -> io::Result<()> {
    let mut tree = [0u16; 300];
    let mut flags = [0u8; 300];
    sums::fill(&mut tree, sums::wide_mark);
    sums::fill(&mut flags, sums::mark);
    let t = tree_places.min(300);
    let f = flag_places.min(300);
    run(out, file, &mut tree[..t], &mut flags[..f])
}

// Stays: a case of its own form; only its name is that of other programs' cases.
fn next_case<R: Read, W: Write>(input: &mut R, out: &mut W) -> io::Result<()> {
    let places = stored::next_number(input);
    let length = stored::next_number(input);
    let mut bytes = [0u8; 131072];
    let n = stored::take(input, &mut bytes, length);
    lend(out, &bytes[..n], places / 65536, places % 65536)?;
    writeln!(out)
}

// Stays: what this program runs; only the name is another program's.
// All cases.
fn run_all<R: Read, W: Write>(input: &mut R, out: &mut W) -> io::Result<()> {
    stored::each_case(input, out, next_case)?;
    stored::each_case(input, out, additions::next_case)
}

// Stays: where a program begins. What programs share stands in `stored::run`; what is left names what this one runs.
fn main() {
    stored::run(StandardInput, StandardOutput, run_all);
}
