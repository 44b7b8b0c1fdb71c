#![tactic(auto)]
// Plans stored network files, then slices trees of stored networks. The form of input and output is stated in harness/plan.py, which makes both.
ghost use Rattle.std.specs.Prelude.{◌≤◌};

mod slices; // slices.rt: trees sliced

use std::io::{self, Read, Write};
use stored::standard::{StandardInput, StandardOutput};

// Stays: `input: &mut R, out: &mut W`: what a run reads and what it writes; there is nothing else that a run has.

// Stays: two buffers of no common places; the text is bytes already, and goes out as it is.
// One case, with its number: what `plan` prints of a network file.
fn next_case<R: Read, W: Write>(input: &mut R, out: &mut W, k: usize) -> io::Result<()> {
    let mut bytes = [0u8; 131072];
    let mut text = [0u8; 131072];
    writeln!(out, "case {k}")?;
    let count = stored::next_number(input);
    let n = stored::take(input, &mut bytes, count);
    let c = planning::plan(&bytes[..n], &mut text);
    out.write_all(&text[..c])
}

// Stays: a case is told its number, which the loop that programs share does not hand out.
// All cases, then all questions on slicing.
fn run<R: Read, W: Write>(input: &mut R, out: &mut W) -> io::Result<()> {
    for k in 0..stored::next_number(input) {
        next_case(input, out, k.saturating_add(1))?;
    }
    stored::each_case(input, out, slices::answer_next)
}

// Stays: where a program begins. What programs share stands in `stored::run`; what is left names what this one runs.
fn main() {
    stored::run(StandardInput, StandardOutput, run);
}
