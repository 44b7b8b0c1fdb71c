// A listing, in words.
use byteorder::{BigEndian, ReadBytesExt};
use std::io::{self, Write};
use stored::sums::with;

// Stays: the bytes of a listing say by 0 or 1 whether a total and a widest are there; then come five numbers a step.
/// The listing of a priced tree: how many steps, total, widest, slice bits, and a sum over the numbers of all steps.
pub(crate) fn write<W: Write>(out: &mut W, listing: &[u8]) -> io::Result<()> {
    let mut rest = listing;
    let steps = rest.read_u16::<BigEndian>()?;
    let beyond = rest.read_u8()?;
    let total = rest.read_u64::<BigEndian>()?;
    let widest_there = rest.read_u8()?;
    let widest = rest.read_u16::<BigEndian>()?;
    let bits = rest.read_u16::<BigEndian>()?;
    write!(out, "priced {steps}")?;
    match beyond {
        0 => write!(out, " total {total}")?,
        _ => write!(out, " total beyond")?,
    }
    match widest_there {
        0 => write!(out, " widest -")?,
        _ => write!(out, " widest {widest}")?,
    }
    let mut sum = 0;
    for _ in 0..5 * usize::from(steps) {
        sum = with(sum, u64::from(rest.read_u16::<BigEndian>()?));
    }
    write!(out, " bits {bits} sum {sum}")
}
