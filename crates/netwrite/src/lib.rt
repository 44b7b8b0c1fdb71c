#![tactic(auto)]
// The network file, written from lists that are lent: what is refused, how many bytes there are, and the bytes.
ghost use Rattle.std.specs.Prelude.{◌≡◌, ◌+◌, ◌<◌, ◌≤◌, length, MatchOption};
ghost use Rattle.spec.specs.Refusal.{first};
ghost use Rattle.spec.specs.File.{write_checks, write_of, buffer_after, tree_checks, flags_checks, tree_field, ask_field, file_of};
ghost use Rattle.spec.specs.Layout.{network_of};
ghost use Rattle.spec.specs.Network.{leaf_count, index_count};
ghost use Rattle.spec.specs.FileClaims.{Bytes};
ghost use Rattle.network.specs.Checks.{Fitting};
ghost use Rattle.network.specs.Views.{net_in};
ghost use Rattle.payloads.specs.Payload.{verdict};
ghost use Rattle.fields.specs.Scans.{ask_of};
ghost use Rattle.putfields.specs.Put.{Put};
ghost use Rattle.putfields.specs.Leaves.{leaf_bytes};
ghost use Rattle.netwrite.specs.Contents.{kids_of, parts_of, contents_of, network_fields};
ghost use Rattle.netwrite.specs.Sizes.{Few};
ghost use Rattle.netwrite.specs.Writes.{AskFits, KidsFit};

mod parts; // parts.rt: what a network file is written from

use fields::Asked;
use network::Accepted;
pub use parts::Parts;
use payloads::tags::Tag;
use spec::Refusal;

// Stays: `out: &mut [u8], at: usize`: with buffer and cursor in one value each contract says that it still lends the same buffer; a list's does not.

// How many bytes the fields of the leaves take.
fn leaf_bytes(counts: &[u8]) -> usize
    requires { Few counts.now }
    ensures { (result ≡ leaf_bytes (length counts.now) counts.now) × (result ≤ 4480) }
{
    let mut sum = 0;
    for count in counts {
        sum += 3 + usize::from(*count);
    }
    sum
}

// How many bytes the network's fields take.
fn network_bytes(network: &Accepted) -> usize
    ensures { result ≡ length (network_fields (net_in network.now)) }
{
    6 + network.index_count() + network.outputs.len() + leaf_bytes(network.leg_counts)
}

// How many of the bytes are left behind a field of so many payload bytes, if there is room for it. No sum is made: it might not fit.
fn after_field(left: usize, payload: usize) -> Option<usize>
    ensures { MatchOption result (left < 3 + payload) (λ r. r + (3 + payload) ≡ left) }
{
    left.checked_sub(3)?.checked_sub(payload)
}

// Stays: the children come from outside, and are checked only once it is known that the buffer has room for them.
// How many are left behind the tree's field, if there is a tree.
fn after_tree(left: usize, tree: Option<&[u16]>) -> Option<usize>
    ensures { MatchOption result (left < length (tree_field (kids_of tree.entry))) (λ r. r + length (tree_field (kids_of tree.entry)) ≡ left) }
{
    match tree {
        None => Some(left),
        Some(kids) => after_field(left, kids.len()),
    }
}

// How many are left behind the field of what is asked, if anything is.
fn after_ask(left: usize, ask: Asked) -> Option<usize>
    ensures { MatchOption result (left < length (ask_field (ask_of ask.entry))) (λ r. r + length (ask_field (ask_of ask.entry)) ≡ left) }
{
    match ask {
        Asked::Plain => Some(left),
        Asked::Flagged(flags) => after_field(left, flags.len()),
        Asked::Target(_) => after_field(left, 1),
    }
}

// How many bytes of a buffer of `size` are left behind the file, from the cursor on, if there is room for it.
fn room_left(parts: &Parts, size: usize, cursor: usize) -> Option<usize>
    ensures { MatchOption result (size < cursor + length (file_of (parts_of parts.now))) (λ r. cursor + length (file_of (parts_of parts.now)) ≤ size) }
{
    let left = size.checked_sub(cursor)?;
    let behind = left.checked_sub(network_bytes(&parts.network))?;
    after_ask(after_tree(behind, parts.tree)?, parts.ask)
}

// Stays: the children come from outside; whether they are a tree is what is asked.
// Refuses the tree of a network, if there is one and it is not valid.
fn check_tree(network: &Accepted, tree: Option<&[u16]>) -> Result<(), Refusal>
    ensures { result ≡ verdict (first (tree_checks (net_in network.now) (kids_of tree.entry))) }
{
    match tree {
        None => Ok(()),
        Some(kids) => {
            let mut words = [0u64; 2048];
            if walk::is_tree(kids, network.leaf_count(), &mut words) {
                Ok(())
            } else {
                Err(Refusal::InvalidTree)
            }
        }
    }
}

// Refuses the flags of a network's indices, if flags are asked and are too many or a byte is over 1.
fn check_ask(network: &Accepted, ask: Asked) -> Result<(), Refusal>
    ensures { result ≡ verdict (first (flags_checks (net_in network.now) (ask_of ask.entry))) }
{
    match ask {
        Asked::Plain | Asked::Target(_) => Ok(()),
        Asked::Flagged(flags) => payloads::check_flags(flags, network.index_count()),
    }
}

// The first refusal of a file that is to go into a buffer of `size` bytes from the cursor on, or none.
fn check(parts: &Parts, size: usize, cursor: usize) -> Result<(), Refusal>
    ensures { result ≡ verdict (first (write_checks (parts_of parts.now) size cursor)) }
{
    if room_left(parts, size, cursor).is_none() {
        return Err(Refusal::ShortBuffer);
    }
    check_tree(&parts.network, parts.tree)?;
    check_ask(&parts.network, parts.ask)
}

// Stays: a buffer and a cursor; as one value they would have to be said to lend the same buffer afterwards.
// The fields of an accepted network.
fn put_network(out: &mut [u8], at: usize, network: &Accepted) -> usize
    requires { at + length (network_fields (net_in network.now)) ≤ length out.old }
    ensures { Put out.old out.new at result (network_fields (net_in network.now)) }
{
    let leaves = putfields::put_bytes(out, at, Tag::Weights.number(), network.weights);
    let last = putfields::put_leaves_of(out, leaves, network);
    putfields::put_indices(out, last, Tag::Outputs.number(), network.outputs)
}

// Stays: a buffer and a cursor; and children that are written as bytes, whether or not they are a tree.
// The field of the tree, if there is one.
fn put_tree(out: &mut [u8], at: usize, tree: Option<&[u16]>) -> usize
    requires { KidsFit (kids_of tree) × (at + length (tree_field (kids_of tree)) ≤ length out.old) }
    ensures { Put out.old out.new at result (tree_field (kids_of tree.entry)) }
{
    match tree {
        None => at,
        Some(kids) => putfields::put_indices(out, at, Tag::Tree.number(), kids),
    }
}

// Stays: a buffer and a cursor; as one value they would have to be said to lend the same buffer afterwards.
// The field of what is asked, if anything is.
fn put_ask(out: &mut [u8], at: usize, ask: Asked) -> usize
    requires { AskFits (ask_of ask) × (at + length (ask_field (ask_of ask)) ≤ length out.old) }
    ensures { Put out.old out.new at result (ask_field (ask_of ask.entry)) }
{
    match ask {
        Asked::Plain => at,
        Asked::Flagged(flags) => putfields::put_bytes(out, at, Tag::Flags.number(), flags),
        Asked::Target(bits) => putfields::put_bytes(out, at, Tag::Target.number(), &[bits]),
    }
}

// Stays: a buffer and a cursor; as one value they would have to be said to lend the same buffer afterwards.
/// Writes the file of an accepted network, of its tree, if there is one, and of what is asked, from the cursor on, and answers the cursor past
/// it; or refuses, in this order, a buffer that is too short, a tree that is not the network's, wrong flags, and writes nothing.
pub fn write_accepted(parts: &Parts, out: &mut [u8], cursor: usize) -> Result<usize, Refusal>
    ensures answer { result ≡ write_of (parts_of parts.now) (length out.old) cursor }
    ensures buffer { out.new ≡ buffer_after (parts_of parts.now) cursor (write_of (parts_of parts.now) (length out.old) cursor) out.old }
{
    check(parts, out.len(), cursor)?;
    let next = put_network(out, cursor, &parts.network);
    let last = put_tree(out, next, parts.tree);
    Ok(put_ask(out, last, parts.ask))
}

// Stays: asks no more of its callers than lists that fit.
/// The same of the network of lists of which the first places are in use, as many as `counts` says of weights, leaves and outputs. It is
/// refused by its check, before all else.
pub fn write(
    counts: (usize, usize, usize),
    weights: &[u8],
    leg_counts: &[u8],
    legs: &[u16],
    outputs: &[u16],
    tree: Option<&[u16]>,
    ask: Asked,
    out: &mut [u8],
    cursor: usize,
) -> Result<usize, Refusal>
    requires { Fitting counts.0 counts.1 counts.2 weights.now leg_counts.now legs.now outputs.now }
    ensures answer { result ≡ write_of (contents_of counts.0 counts.1 counts.2 weights.now leg_counts.now legs.now outputs.now tree.entry ask.entry) (length out.old) cursor }
    ensures buffer { out.new ≡ buffer_after (contents_of counts.0 counts.1 counts.2 weights.now leg_counts.now legs.now outputs.now tree.entry ask.entry) cursor (write_of (contents_of counts.0 counts.1 counts.2 weights.now leg_counts.now legs.now outputs.now tree.entry ask.entry) (length out.old) cursor) out.old }
{
    let network = Accepted::of_counts(counts, weights, leg_counts, legs, outputs)?;
    let parts = Parts { network, tree, ask };
    write_accepted(&parts, out, cursor)
}
