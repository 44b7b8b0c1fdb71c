// Plans stored network files by bisection and writes a line for each.
// The form of input and output is stated in harness/src/bisection/record.rs, which makes both.
use network::Network;
use std::io::{self, Read, Write};

// Stays: `input: &mut R, out: &mut W`: what a case reads and what it writes.

// Stays: what is asked is two halves of one number of the input; a tree has two places for each leaf but one.
// The plan of a network and the words that it took, or the number of the refusal.
fn plan<W: Write>(out: &mut W, network: &Network, asked: usize, draws: &[u64]) -> io::Result<()> {
    let mut tree = [0u16; 254];
    let mut ws = [0u64; 32768];
    let places = (network.leaf_count % 256).saturating_sub(1) * 2;
    let (imbalance, cutoff) = (asked / 65536, asked % 65536);
    match bisection::plan(network, imbalance, cutoff, draws, &mut tree, &mut ws) {
        Err(refusal) => write!(out, "refused {}", refusal.number())?,
        Ok(taken) => {
            write!(out, "taken {taken}")?;
            stored::write_numbers(out, &tree[..places.min(254)])?;
        }
    }
    writeln!(out)
}

// Stays: std has no From of usize for u64.
// A word of eight bytes: two numbers, the high one first.
fn next_word<R: Read>(input: &mut R) -> u64 {
    let high = stored::next_number(input) as u64;
    let low = stored::next_number(input) as u64;
    high * 4294967296 + low
}

// The words: word k, from 0 on, is (k + 1) × step modulo 2^64.
fn put_words(words: &mut [u64], step: u64) {
    let mut word: u64 = 0;
    for place in words {
        word = word.wrapping_add(step);
        *place = word;
    }
}

// Stays: a case of its own form; it reads words and a network, and writes a line.
/// One case: the words that it says, the network after them, and its plan.
pub(crate) fn next_case<R: Read, W: Write>(input: &mut R, out: &mut W) -> io::Result<()> {
    let mut words = [0u64; 65536];
    let asked = stored::next_number(input);
    let count = stored::next_number(input).min(65536);
    put_words(&mut words[..count], next_word(input));
    let network = stored::next_network(input, out);
    plan(out, &network, asked, &words[..count])
}
