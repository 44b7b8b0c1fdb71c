#![tactic(auto)]
// The payloads of a network file's fields: which refusal each brings; and bytes copied to lists of indices.
ghost use Rattle.std.specs.Prelude.{◌≡◌, [], ◌≤◌};
ghost use Rattle.spec.specs.Memory.{over, placed};
ghost use Rattle.spec.specs.File.{index_bytes};
ghost use Rattle.payloads.specs.Payload.{verdict, weights_refusal, leaf_refusal, outputs_refusal, tree_refusal, flags_refusal};

pub mod tags; // tags.rt: the tags of the fields

use network::{Network, scan};
use spec::Refusal;

// Stays: a rule of the project names this form, the pairwise search that leaves both of its loops at the first refusal; m counts indices, not bytes.
// Indices of a network of m, byte by byte: refused at the first that is not below m, or that stands before.
fn check_indices(bytes: &[u8], m: usize) -> Result<(), Refusal>
    ensures { result ≡ verdict (index_bytes m [] bytes.now) }
{
    let mut found = Ok(());
    'bytes: for (k, index) in bytes.iter().enumerate() {
        if m <= usize::from(*index) {
            found = Err(Refusal::OutOfRange);
            break 'bytes;
        }
        for other in &bytes[..k] {
            if other == index {
                found = Err(Refusal::Repeated);
                break 'bytes;
            }
        }
    }
    found
}

/// The weights of a network's indices: refused if there are too many, or one is above the limit.
pub fn check_weights(bytes: &[u8]) -> Result<(), Refusal>
    ensures { result ≡ verdict (weights_refusal bytes.now) }
{
    if bytes.len() > Network::MAX_INDICES {
        return Err(Refusal::TooLarge);
    }
    if scan::above(bytes, Network::MAX_WEIGHT) {
        return Err(Refusal::Overweight);
    }
    Ok(())
}

// Stays: m and n are the network's counts so far, not the length of the bytes.
/// A leaf of a network of m indices that has n leaves already.
pub fn check_leaf(bytes: &[u8], m: usize, n: usize) -> Result<(), Refusal>
    ensures { result ≡ verdict (leaf_refusal m n bytes.now) }
{
    if bytes.len() > Network::MAX_LEGS {
        return Err(Refusal::TooLarge);
    }
    if n >= Network::MAX_LEAVES {
        return Err(Refusal::TooLarge);
    }
    check_indices(bytes, m)
}

// Stays: m is the network's count of indices, whatever the number of outputs.
/// The outputs of a network of m indices.
pub fn check_outputs(bytes: &[u8], m: usize) -> Result<(), Refusal>
    ensures { result ≡ verdict (outputs_refusal m bytes.now) }
{
    if bytes.len() > Network::MAX_OUTPUTS {
        return Err(Refusal::TooLarge);
    }
    check_indices(bytes, m)
}

// Stays: there may be fewer flags than the m indices, and more are refused here.
/// The flags of m indices: refused if there are more, or a byte is over 1.
pub fn check_flags(bytes: &[u8], m: usize) -> Result<(), Refusal>
    ensures { result ≡ verdict (flags_refusal m bytes.now) }
{
    if bytes.len() > m {
        return Err(Refusal::InvalidFlags);
    }
    if scan::above(bytes, 1) {
        return Err(Refusal::InvalidFlags);
    }
    Ok(())
}

// Stays: n is the number of leaves; whether the bytes are as many as its tree needs is what is checked.
/// A tree of n leaves, of which there are at most 128: two bytes a node.
pub fn check_tree(bytes: &[u8], n: usize) -> Result<(), Refusal>
    requires { n ≤ 128 }
    ensures { result ≡ verdict (tree_refusal n bytes.now) }
{
    let len = bytes.len();
    if len > 256 {
        return Err(Refusal::InvalidTree);
    }
    let mut kids = [0u16; 256];
    copy_bytes(&mut kids, bytes);
    let mut words = [0u64; 2048];
    if walk::is_tree(&kids[..len], n, &mut words) {
        Ok(())
    } else {
        Err(Refusal::InvalidTree)
    }
}

// Stays: `copy_from_slice`, by which `cells::place` copies, is a `memmove` where both lists come from outside, and a host of the library for C need not have one.
/// Copies the bytes to the front of a list of bytes, as far as it goes.
pub fn put_bytes(to: &mut [u8], bytes: &[u8])
    ensures { to.new ≡ placed to.old 0 bytes.now }
{
    for k in 0..to.len().min(bytes.len()) {
        to[k] = bytes[k];
    }
}

// Stays: of a list that is written through a zip only the length is known afterwards.
/// Copies the bytes to the front of a list of indices, as far as it goes.
pub fn copy_bytes(to: &mut [u16], bytes: &[u8])
    ensures { to.new ≡ over to.old bytes.now }
{
    for k in 0..to.len().min(bytes.len()) {
        to[k] = u16::from(bytes[k]);
    }
}

// Stays: `cells::place` is lent numbers as wide as the list's; these are bytes, and the list is of indices.
/// The same from place `at` on: the copier is lent the rest of the list only.
pub fn place(list: &mut [u16], at: usize, bytes: &[u8])
    ensures { list.new ≡ placed list.old at bytes.now }
{
    if at < list.len() {
        copy_bytes(&mut list[at..], bytes);
    }
}
