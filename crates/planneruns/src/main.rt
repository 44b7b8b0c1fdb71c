#![tactic(auto)]
// Runs the planners on stored cases and writes a line for each, to be held to the Rust's trees: greedy's, then bisection's, then improvement's.
// The form of input and output is stated in harness/src/greedy/record.rs, bisection/record.rs and reconfigure/record.rs, which make both.
mod bisection_runs; // bisection_runs.rt: plans by bisection
mod greedy_runs; // greedy_runs.rt: greedy's plans
mod improvement_runs; // improvement_runs.rt: trees improved

use std::io::{self, Read, Write};
use stored::standard::{StandardInput, StandardOutput};

// Stays: `input: &mut R, out: &mut W`: what a run reads and what it writes; there is nothing else that a run has.
// Stays: what this program runs; only the name is another program's.
// All cases.
fn run_all<R: Read, W: Write>(input: &mut R, out: &mut W) -> io::Result<()> {
    stored::each_case(input, out, greedy_runs::next_case)?;
    stored::each_case(input, out, bisection_runs::next_case)?;
    stored::each_case(input, out, improvement_runs::next_case)
}

// Stays: where a program begins. What programs share stands in `stored::run`; what is left names what this one runs.
fn main() {
    stored::run(StandardInput, StandardOutput, run_all);
}
