// Records made by additions and put together place by place: what each addition answers, and the check of what comes out.
ghost use Rattle.std.specs.Prelude.{◌≤◌, length, IfOk};

use crate::sums;
use network::Network;
use spec::Refusal;
use std::io::{self, Read, Write};

// Stays: `input: &mut R, out: &mut W`: what a run reads and what it writes; two functions below a case take the input alone.

// Stays: a line of the output has a number here in both cases, as the stored answers have.
// The number of what a check or an addition answers: 0 where nothing is refused.
fn number(answer: Result<(), Refusal>) -> u8 {
    match answer {
        Ok(()) => 0,
        Err(refusal) => refusal.number(),
    }
}

// Stays: the remainder is below the cast's limit.
// So many indices, to the front of a list.
fn read_leaf<R: Read>(input: &mut R, leaf: &mut [u16]) -> io::Result<()> {
    for index in leaf {
        *index = (stored::next_number(input) % 65536) as u16;
    }
    Ok(())
}

// One leaf more, of so many indices that follow, at most 40.
fn add_leaf<R: Read>(
    input: &mut R,
    network: &mut Network,
    count: usize,
) -> io::Result<Result<(), Refusal>> {
    let mut leaf = [0u16; 40];
    let n = count.min(40);
    read_leaf(input, &mut leaf[..n])?;
    Ok(network.add_leaf(&leaf[..n]))
}

// Stays: the kinds are numbers of the stored input; an enum of them would be matched to the same arms again. Each value is below its cast's limit.
// What a turn does to the record that no check is asked for: one of the three counts is put, or a place of one of the four lists.
fn put(network: &mut Network, kind: usize, value: usize) {
    let place = value / 65536;
    match kind {
        3 => network.index_count = value,
        4 => network.leaf_count = value,
        5 => network.output_count = value,
        6 => cells::put(&mut network.weights, place, (value % 256) as u8),
        7 => cells::put(&mut network.leg_counts, place, (value % 256) as u8),
        8 => cells::put(&mut network.legs, place, (value % 65536) as u16),
        _ => cells::put(&mut network.outputs, place, (value % 65536) as u16),
    }
}

// Stays: the kinds are numbers of the stored input, and only three of the ten are additions. Each value is below its cast's limit.
// One turn: an addition, whose answer is told, or something that is put.
fn take_turn<R: Read, W: Write>(
    input: &mut R,
    out: &mut W,
    network: &mut Network,
) -> io::Result<()> {
    let kind = stored::next_number(input);
    let value = stored::next_number(input);
    let answer = match kind {
        0 => network.add_weight((value % 256) as u8),
        1 => add_leaf(input, network, value)?,
        2 => network.add_output((value % 65536) as u16),
        _ => {
            put(network, kind, value);
            return Ok(());
        }
    };
    write!(out, " {}", number(answer))
}

// Stays: a case of its own form; the input says how many turns follow, and there is no list of them.
/// One case: its turns, the check, and a sum over the record.
pub(crate) fn next_case<R: Read, W: Write>(input: &mut R, out: &mut W) -> io::Result<()> {
    write!(out, "added")?;
    let mut network = Network::empty();
    for _ in 0..stored::next_number(input) {
        take_turn(input, out, &mut network)?;
    }
    let check = number(network.check());
    let sum = sums::record(0, &network);
    writeln!(out, " check {check} sum {sum}")
}
