#![tactic(auto)]
// Prices stored network files and writes a line for each, to be held to the Rust's answers.
// The form of input and output is stated in harness/src/record.rs, which makes both.
ghost use Rattle.std.specs.Prelude.{◌≤◌};

mod records; // records.rt: the steps as records
mod words; // words.rt: the listing

// Stays: `input: &mut R, out: &mut W`: what a run reads and what it writes; there is nothing else that a run has.
// Stays: `out: &mut W, file: &[u8]`: where a call writes and what it reads, lent for that call alone.

use std::io::{self, Read, Write};
use stored::standard::{StandardInput, StandardOutput};

// One case: the listing and the records, or the number of the refusal.
fn price<W: Write>(out: &mut W, file: &[u8]) -> io::Result<()> {
    let mut listed = [0u8; 1286];
    match listing::price_file(file, &mut listed) {
        Ok(()) => words::write(out, &listed)?,
        Err(refusal) => write!(out, "refused {}", refusal.number())?,
    }
    records::write(out, file)?;
    writeln!(out)
}

// A case in what is stored: how many bytes, and the bytes of a file.
// Stays: this program's own case; the loop over the cases is `stored::each_case`.
fn next_case<R: Read, W: Write>(input: &mut R, out: &mut W) -> io::Result<()> {
    let mut bytes = [0u8; 131072];
    let count = stored::next_number(input);
    let n = stored::take(input, &mut bytes, count);
    price(out, &bytes[..n])
}

// Stays: each program hands over its own case. One function that takes the case and runs the program was tried in `stored`: the borrow checker takes no closure over the case there.
// All cases.
fn run_all<R: Read, W: Write>(input: &mut R, out: &mut W) -> io::Result<()> {
    stored::each_case(input, out, next_case)
}

// Stays: where a program begins. What programs share stands in `stored::run`; what is left names what this one runs.
fn main() {
    stored::run(StandardInput, StandardOutput, run_all);
}
