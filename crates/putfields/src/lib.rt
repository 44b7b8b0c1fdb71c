#![tactic(auto)]
// The fields of a network file, put into a lent buffer from a cursor on. What stands before the cursor stays.
ghost use Rattle.std.specs.Prelude.{◌+◌, ◌<◌, ◌≤◌, ◌≡◌, length};
ghost use Rattle.spec.specs.Memory.{over};
ghost use Rattle.spec.specs.File.{field, leaf_fields};
ghost use Rattle.spec.specs.FileClaims.{Bytes};
ghost use Rattle.network.specs.Checks.{leaves_of};
ghost use Rattle.network.specs.Views.{net_in};
ghost use Rattle.putfields.specs.Put.{Put, header};
ghost use Rattle.putfields.specs.Leaves.{Leaves};

use network::{Accepted, scan};
use payloads::tags::Tag;

// Stays: `out: &mut [u8], at: usize`: with buffer and cursor in one value each contract says that it still lends the same buffer; a list's does not.
// Stays: `counts: &[u8], legs: &[u16]`, `n: usize, counts: &[u8]`: lists that fit are enough, and n may be fewer than counts; `put_leaves_of` takes a network.

// Stays: std copies lists of one width only; that each index fits a byte is required, so that the cast loses nothing.
// Writes indices below 256 to the front of `to`, a byte each.
fn narrow(to: &mut [u8], list: &[u16])
    requires { (length list.now ≤ length to.old) × Bytes list.now }
    ensures { to.new ≡ over to.old list.now }
{
    for (k, x) in list.iter().enumerate() {
        to[k] = *x as u8;
    }
}

// Stays: a tag is any byte, as in the definition of a field; that n fits 16 bits is required, so that the cast loses nothing.
// A field's tag and the length n of its payload, high byte first.
fn put_header(out: &mut [u8], at: usize, tag: u8, n: usize) -> usize
    requires { (n < 65536) × (at + 3 ≤ length out.old) }
    ensures { Put out.old out.new at result (header tag n) }
{
    let length = (n as u16).to_be_bytes();
    let head = [tag, length[0], length[1]];
    cells::place(out, at, &head);
    at + 3
}

// Stays: a tag is any byte, as in the definition of a field.
/// A field whose payload is bytes. The payload's writer is lent the rest of the buffer.
pub fn put_bytes(out: &mut [u8], at: usize, tag: u8, payload: &[u8]) -> usize
    requires { (length payload.now < 65536) × (at + 3 + length payload.now ≤ length out.old) }
    ensures { Put out.old out.new at result (field tag payload.now) }
{
    let n = payload.len();
    let next = put_header(out, at, tag, n);
    cells::copy(&mut out[next..], payload, n);
    next + n
}

// Stays: a tag is any byte, as in the definition of a field.
/// A field whose payload is indices or nodes, a byte each.
pub fn put_indices(out: &mut [u8], at: usize, tag: u8, payload: &[u16]) -> usize
    requires { (length payload.now < 65536) × (at + 3 + length payload.now ≤ length out.old) × Bytes payload.now }
    ensures { Put out.old out.new at result (field tag payload.now) }
{
    let n = payload.len();
    let next = put_header(out, at, tag, n);
    narrow(&mut out[next..], payload);
    next + n
}

// Stays: asks no more of its callers than lists that fit; leaves are read by number, and there may be fewer than counts.
/// A field for each of n leaves.
pub fn put_leaves(out: &mut [u8], at: usize, n: usize, counts: &[u8], legs: &[u16]) -> usize
    requires { Leaves n counts.now legs.now × (at + length (leaf_fields (leaves_of n counts.now legs.now)) ≤ length out.old) }
    ensures { Put out.old out.new at result (leaf_fields (leaves_of n counts.now legs.now)) }
{
    let mut next = at;
    for i in 0..n {
        let leaf = scan::leaf(counts, legs, i);
        next = put_indices(out, next, Tag::Leaf.number(), leaf);
    }
    next
}

// Stays: `_of` an accepted network, as `put_leaves` is of lists; a buffer and a cursor are lent, as to the fields above.
/// A field for each leaf of an accepted network.
pub fn put_leaves_of(out: &mut [u8], at: usize, network: &Accepted) -> usize
    requires { at + length (leaf_fields (net_in network.now).leaves) ≤ length out.old }
    ensures { Put out.old out.new at result (leaf_fields (net_in network.now).leaves) }
{
    let n = network.leaf_count();
    put_leaves(out, at, n, network.leg_counts, network.legs)
}
