// Writes what was read, into a buffer that is one byte short and into one with room to spare.
use crate::sums;
use fields::Asked;
use netfile::{Ask, Given};
use network::Network;
use spec::Refusal;
use std::io::{self, Write};

// Stays: `out: &mut W, file: &[u8]`: where a line goes, and what it is about; the file is no part of the output.
// Stays: `network: &Network, given: Given`: what was read of one file; the writer takes both apart.

// Stays: a buffer, the bounds of what was written in it, and the file that should stand there; the search itself is std's `all`.
// Whether the bytes from the cursor to `end` are the file's, and all others the marks of their places.
fn holds(buffer: &[u8], cursor: usize, end: usize, file: &[u8]) -> bool {
    buffer.iter().enumerate().all(|(i, byte)| {
        if cursor <= i && i < end {
            *byte == cells::get_or(file, i - cursor, 0)
        } else {
            *byte == sums::mark(i)
        }
    })
}

// Stays: a buffer that was written, the place where that began, and the file that should stand there.
// The number of a refusal, which must leave the buffer as it is, or whether the file, and nothing else, is new in it.
fn tell<W: Write>(
    out: &mut W,
    answer: Result<usize, Refusal>,
    buffer: &[u8],
    cursor: usize,
    file: &[u8],
) -> io::Result<()> {
    match answer {
        Ok(end) => {
            if end.saturating_sub(cursor) == file.len() && holds(buffer, cursor, end, file) {
                write!(out, " written same")?;
            }
        }
        Err(refusal) => {
            write!(out, " room {}", refusal.number())?;
            if !holds(buffer, 0, 0, file) {
                write!(out, " touched")?;
            }
        }
    }
    Ok(())
}

// What was read of the given lists, as the writer takes it.
fn asked<'a>(ask: Ask, flags: &'a [u8]) -> Asked<'a> {
    match ask {
        Ask::Plain => Asked::Plain,
        Ask::Flagged(count) => {
            let n = count.min(flags.len());
            Asked::Flagged(&flags[..n])
        }
        Ask::Target(bits) => Asked::Target(bits),
    }
}

// Stays: the tree is what a file gave, as the reader left it.
fn tree_given<'a>(tree: Option<usize>, kids: &'a [u16]) -> Option<&'a [u16]> {
    let n = tree?.min(kids.len());
    Some(&kids[..n])
}

// Stays: the tree is what a file gave; it is the writer that checks it.
// Writes the network into a marked buffer, from the cursor on.
fn attempt<W: Write>(
    out: &mut W,
    file: &[u8],
    network: &Network,
    tree: Option<&[u16]>,
    ask: Asked,
    cursor: usize,
) -> io::Result<()> {
    let mut buffer = [0u8; 8192];
    sums::fill(&mut buffer, sums::mark);
    let answer = netfile::write_network(network, tree, ask, &mut buffer, cursor);
    tell(out, answer, &buffer, cursor, file)
}

// Stays: the tree is what a file gave; it is the writer that checks it.
/// Behind the cursor the buffer has a byte less than the file, then three more.
pub(crate) fn write<W: Write>(
    out: &mut W,
    file: &[u8],
    network: &Network,
    given: Given,
    kids: &[u16],
    flags: &[u8],
) -> io::Result<()> {
    let end = 8192usize.saturating_sub(file.len());
    let tree = tree_given(given.tree, kids);
    let ask = asked(given.ask, flags);
    attempt(out, file, network, tree, ask, end + 1)?;
    attempt(out, file, network, tree, ask, end.saturating_sub(3))
}
