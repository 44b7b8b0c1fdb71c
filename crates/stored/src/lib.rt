#![tactic(auto)]
// What the programs that run stored cases share: numbers, files and trees that are read, lists that are written.
ghost use Rattle.std.specs.Prelude.{◌≡◌, ℕ, ◌<◌, ◌≤◌, length, min, OnOk};
ghost use Rattle.std.specs.Io.Chain.{chain_first, chain_second};
ghost use Rattle.std.specs.Io.Repeat.{repeat_byte};
ghost use Rattle.std.specs.Io.KnownBytes.{Appends};
ghost use Rattle.network.specs.Record.{net_of};
ghost use Rattle.spec.specs.File.{read_of};
ghost use Rattle.netfile.specs.Answers.{network_in};
ghost use Rattle.stored.specs.Cases.{NumberRead, Gives, GiveOk};
ghost use Rattle.stored.specs.Written.{spaced, flagged};

pub mod standard; // standard.rt: standard input and output
pub mod sums; // sums.rt: sums over lists

use byteorder::{BigEndian, ReadBytesExt};
use network::Network;
use std::io::{self, Chain, Read, Repeat, Write};

// Stays: `input: &mut R, out: &mut W`: what a run reads and what it writes; most functions below a case take one of them.

/// An input that goes on with zeros where its bytes end.
pub fn with_zeros<R: Read>(input: R) -> Chain<R, Repeat>
    ensures first { chain_first result ≡ input }
    ensures then_zeros { repeat_byte (chain_second result) ≡ 0 }
{
    input.chain(io::repeat(0))
}

/// Runs a program on a reader and a writer. An input that ends early goes on with zeros. A write that fails ends the run, and is not told.
pub fn run<R: Read + Drop, W: Write + Drop, F: Fn(&mut Chain<R, Repeat>, &mut W) -> io::Result<()>>(
    reader: R,
    writer: W,
    all: F,
)
    requires { F.IsAlwaysCallable all }
    ensures { (before : _) × (answer : _) × (after : _)
        × Gives F.Fn all before answer after × (repeat_byte (chain_second before.0) ≡ 0) }
{
    let mut input = with_zeros(reader);
    let mut out = writer;
    let _ = all(&mut input, &mut out);
}

// Stays: std has no From of u32 for usize.
/// A number of four bytes, high byte first. A read that fails gives 0.
pub fn next_number<R: Read>(input: &mut R) -> usize
    ensures fits { result < 4294967296 }
    ensures number { NumberRead R.remaining input.old input.new result }
{
    input.read_u32::<BigEndian>().unwrap_or(0) as usize
}

// Stays: the input says how many cases follow; there is no list of them.
/// Reads how many cases there are, and runs each. One that fails ends the run, with its error.
pub fn each_case<R: Read, W: Write, F: Fn(&mut R, &mut W) -> io::Result<()>>(
    input: &mut R,
    out: &mut W,
    run: F,
) -> io::Result<()>
    requires { F.IsAlwaysCallable run }
    ensures { OnOk result ((n : ℕ) × (cases : R) × NumberRead R.remaining input.old cases n
        × GiveOk F.Fn run n (cases, out.old) (input.new, out.new)) }
{
    for _ in 0..next_number(input) {
        run(input, out)?;
    }
    Ok(())
}

// Stays: the count is the input's, and may be more than the list has room for.
/// Reads so many bytes to the front of a list, or as many as there is room for, and returns how many. A read that fails is not told.
pub fn take<R: Read>(input: &mut R, bytes: &mut [u8], count: usize) -> usize
    ensures fits { result ≤ length bytes.new }
    ensures count { result ≡ min count (length bytes.old) }
{
    let n = count.min(bytes.len());
    let _ = input.read_exact(&mut bytes[..n]);
    n
}

/// The network of a file: a number of bytes, then the bytes. Of a refused file, which is told, the empty one; a write that fails is not told.
/// A file's tree and flags are left.
pub fn next_network<R: Read, W: Write>(input: &mut R, out: &mut W) -> Network
    ensures { (file : _) × (length file ≤ 131072) × (net_of result ≡ network_in (read_of 254 256 file)) }
{
    let mut bytes = [0u8; 131072];
    let mut tree = [0u16; 254];
    let mut flags = [0u8; 256];
    let mut network = Network::empty();
    let count = next_number(input);
    let n = take(input, &mut bytes, count);
    match netfile::read_network(&bytes[..n], &mut network, &mut tree, &mut flags) {
        Ok(_) => {}
        Err(refusal) => {
            let _ = write!(out, "file refused {}", refusal.number());
        }
    }
    network
}

// Stays: the tree is read here, and checked where it is used.
/// A number of places, or as many as there is room for, then so many bytes as a tree, to the front of a list; returns how many. A read that fails
/// gives 0.
pub fn next_tree<R: Read>(input: &mut R, tree: &mut [u16]) -> usize
    ensures { result ≤ length tree.new }
{
    let places = next_number(input).min(tree.len());
    for place in &mut tree[..places] {
        *place = u16::from(input.read_u8().unwrap_or(0));
    }
    places
}

/// The numbers of a list, each after a space.
pub fn write_numbers<W: Write>(out: &mut W, list: &[u16]) -> io::Result<()>
    ensures { OnOk result (Appends (W.contents out.old) (W.contents out.new) (spaced list.now)) }
{
    for x in list {
        write!(out, " {x}")?;
    }
    Ok(())
}

/// The places of a list that are flagged, each after a space.
pub fn write_flagged<W: Write>(out: &mut W, flags: &[u8]) -> io::Result<()>
    ensures { OnOk result (Appends (W.contents out.old) (W.contents out.new) (spaced (flagged flags.now))) }
{
    for (i, flag) in flags.iter().enumerate() {
        if *flag != 0 {
            write!(out, " {i}")?;
        }
    }
    Ok(())
}
