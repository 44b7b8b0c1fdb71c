#![tactic(auto)]
// Runs the tree check, the step order and the comparison of two trees on stored cases and writes a line for each.
// The form of input and output is stated in harness/src/tree_record.rs, which makes both.
ghost use Rattle.std.specs.Prelude.{◌≤◌};
// Stays: `network: &Network, tree: &[u16]`, `tree: &[u16], other: &[u16]`, `out: &mut W, network: &Network`, `input: &mut R, out: &mut W`: what a stored case has, handed to each call that it is made of; a struct would be made and taken apart once.

use network::Network;
use std::io::{self, Read, Write};
use stored::standard::{StandardInput, StandardOutput};

// Is the tree valid.
// Stays: a stored tree need be none: the calls that are run here check it.
fn check<W: Write>(out: &mut W, network: &Network, tree: &[u16]) -> io::Result<()> {
    let mut ws = [0u64; 4096];
    match tree::is_valid(network, tree, &mut ws) {
        Ok(()) => write!(out, "valid"),
        Err(refusal) => write!(out, "refused {}", refusal.number()),
    }
}

// The nodes in step order.
// Stays: a stored tree need be none: the calls that are run here check it.
fn order<W: Write>(out: &mut W, network: &Network, tree: &[u16]) -> io::Result<()> {
    let mut ws = [0u64; 4096];
    let mut steps = [0u16; 127];
    match tree::post_order(network, tree, &mut ws, &mut steps) {
        Ok(count) => stored::write_numbers(out, &steps[..count.min(127)]),
        Err(refusal) => write!(out, " refused {}", refusal.number()),
    }
}

// Are the two trees the same plan.
// Stays: a stored tree need be none: the calls that are run here check it.
fn compare<W: Write>(
    out: &mut W,
    network: &Network,
    tree: &[u16],
    other: &[u16],
) -> io::Result<()> {
    let mut ws = [0u64; 4096];
    match tree::same_plan(network, tree, other, &mut ws) {
        Ok(true) => write!(out, " same"),
        Ok(false) => write!(out, " different"),
        Err(refusal) => write!(out, " refused {}", refusal.number()),
    }
}

// Stays: a stored tree need be none: the calls that are run here check it.
fn run<W: Write>(out: &mut W, network: &Network, tree: &[u16], other: &[u16]) -> io::Result<()> {
    check(out, network, tree)?;
    order(out, network, tree)?;
    compare(out, network, tree, tree)?;
    compare(out, network, tree, other)?;
    writeln!(out)
}

// A network and two trees.
// Stays: each program has its own case; two trees are read, each into a list of its own, as long as the other.
fn next_case<R: Read, W: Write>(input: &mut R, out: &mut W) -> io::Result<()> {
    let mut tree = [0u16; 512];
    let mut other = [0u16; 512];
    let network = stored::next_network(input, out);
    let places = stored::next_tree(input, &mut tree);
    let others = stored::next_tree(input, &mut other);
    run(out, &network, &tree[..places], &other[..others])
}

// Stays: each program hands over its own case. One function that takes the case and runs the program was tried in `stored`: the borrow checker takes no closure over the case there.
// All cases.
fn run_all<R: Read, W: Write>(input: &mut R, out: &mut W) -> io::Result<()> {
    stored::each_case(input, out, next_case)
}

// Stays: where a program begins. What programs share stands in `stored::run`; what is left names what this one runs.
fn main() {
    stored::run(StandardInput, StandardOutput, run_all);
}
