#![tactic(auto)]
// The fields of a network file, one after another, into lists that are lent.
ghost use Rattle.std.specs.Prelude.{◌≡◌, ◌<◌, ◌≤◌, List, ℕ, length, None};
ghost use Rattle.spec.specs.File.{take_weights, take_leaf, take_outputs, take_tree, take_flags, take_target, take_field, nothing_read};
ghost use Rattle.payloads.specs.Tags.{tag_number};
ghost use Rattle.network.specs.Record.{net_of};
ghost use Rattle.fields.specs.Dues.{due_of};
ghost use Rattle.fields.specs.Scans.{tree_of, record_in, reading_of};
ghost use Rattle.fields.specs.Steps.{Splits};
ghost use Rattle.fields.specs.Fields.{Sound, Takes};
ghost use Rattle.fields.specs.Whole.{Room, Finished, FinishedIn};
ghost use Rattle.fields.specs.declared.contents.Asked.TheVariants.{Plain};

pub mod contents; // contents.rt: what a network file has beside its network
pub mod due; // due.rt: what may stand next

pub use contents::{Asked, Contents, Counts};
pub use due::Due;
use network::Network;
use payloads::tags::Tag;
use spec::Refusal;

// What has been read so far beside the lists, and what is due.
#[derive(Clone, Copy)]
struct Scan<'a> {
    due: Due,
    counts: Counts,
    contents: Contents<'a>,
}

// A network without a tree, and nothing asked.
fn bare<'a>(due: Due, counts: Counts) -> Scan<'a>
    ensures { result ≡ record { due = due; counts = counts; contents = record { tree = None; ask = Plain } } }
{
    Scan {
        due,
        counts,
        contents: Contents {
            tree: None,
            ask: Asked::Plain,
        },
    }
}

// Stays: payload and rest are two parts of one list, of different lengths.
// A field: its tag, its payload, and the bytes after it.
#[derive(Clone, Copy)]
struct Field<'a> {
    tag: Tag,
    payload: &'a [u8],
    rest: &'a [u8],
}

// Splits the field at the front of the bytes off: header, tag, payload all there.
fn split_field<'a>(due: Due, bytes: &'a [u8]) -> Result<Field<'a>, Refusal>
    requires { 0 < length bytes.now }
    ensures { Splits due bytes.now result }
{
    if bytes.len() < 3 {
        return Err(Refusal::Truncated);
    }
    let tag = Tag::try_from(bytes[0])?;
    if !due.allows(tag) {
        return Err(Refusal::WrongTag);
    }
    let count = usize::from(u16::from_be_bytes([bytes[1], bytes[2]]));
    let (_, body) = bytes.split_at(3);
    if body.len() < count {
        return Err(Refusal::Truncated);
    }
    let (payload, rest) = body.split_at(count);
    Ok(Field { tag, payload, rest })
}

// The weights. What the lists held before is no part of the network then.
fn take_weights<'a>(payload: &[u8], weights: &mut [u8]) -> Result<Scan<'a>, Refusal>
    requires { 256 ≤ length weights.old }
    ensures { (c l o : List ℕ) → Takes (take_weights payload.now) result weights.new c l o }
{
    payloads::check_weights(payload)?;
    payloads::put_bytes(weights, payload);
    let counts = Counts {
        index_count: payload.len(),
        leaf_count: 0,
        output_count: 0,
    };
    Ok(bare(Due::Leaves, counts))
}

// Stays: lists that fit are enough. The check has found at most 32 indices, so that a conversion's refusal could not come.
// One leaf more.
fn take_leaf<'a>(
    payload: &[u8],
    counts: Counts,
    leg_counts: &mut [u8],
    legs: &mut [u16],
) -> Result<Scan<'a>, Refusal>
    requires { (128 ≤ length leg_counts.old) × (4096 ≤ length legs.old) }
    ensures { (w o : List ℕ) → Sound (record_in counts w leg_counts.old legs.old o) → Takes (take_leaf (net_of (record_in counts w leg_counts.old legs.old o)) payload.now) result w leg_counts.new legs.new o }
{
    let leaf = counts.leaf_count;
    payloads::check_leaf(payload, counts.index_count, leaf)?;
    leg_counts[leaf] = payload.len() as u8;
    payloads::place(legs, leaf * Network::MAX_LEGS, payload);
    let more = Counts {
        index_count: counts.index_count,
        leaf_count: leaf + 1,
        output_count: 0,
    };
    Ok(bare(Due::Leaves, more))
}

// The outputs.
fn take_outputs<'a>(
    payload: &[u8],
    counts: Counts,
    outputs: &mut [u16],
) -> Result<Scan<'a>, Refusal>
    requires { 32 ≤ length outputs.old }
    ensures { (w c l : List ℕ) → Sound (record_in counts w c l outputs.old) → Takes (take_outputs (net_of (record_in counts w c l outputs.old)) payload.now) result w c l outputs.new }
{
    payloads::check_outputs(payload, counts.index_count)?;
    payloads::place(outputs, 0, payload);
    let all = Counts {
        index_count: counts.index_count,
        leaf_count: counts.leaf_count,
        output_count: payload.len(),
    };
    Ok(bare(Due::Tree, all))
}

// The tree.
fn take_tree<'a>(payload: &'a [u8], counts: Counts) -> Result<Scan<'a>, Refusal>
    requires { counts.leaf_count ≤ 128 }
    ensures { (w c l o : List ℕ) → Sound (record_in counts w c l o) → Takes (take_tree (net_of (record_in counts w c l o)) payload.now) result w c l o }
{
    payloads::check_tree(payload, counts.leaf_count)?;
    Ok(Scan {
        due: Due::Ask,
        counts,
        contents: Contents {
            tree: Some(payload),
            ask: Asked::Plain,
        },
    })
}

// The flags, after the tree, if there is one.
fn take_flags<'a>(
    tree: Option<&'a [u8]>,
    payload: &'a [u8],
    counts: Counts,
) -> Result<Scan<'a>, Refusal>
    ensures { (w c l o : List ℕ) → Sound (record_in counts w c l o) → Takes (take_flags (net_of (record_in counts w c l o)) (tree_of tree.entry) payload.now) result w c l o }
{
    payloads::check_flags(payload, counts.index_count)?;
    Ok(Scan {
        due: Due::End,
        counts,
        contents: Contents {
            tree,
            ask: Asked::Flagged(payload),
        },
    })
}

// The target, after the tree, if there is one: one byte.
fn take_target<'a>(
    tree: Option<&'a [u8]>,
    payload: &[u8],
    counts: Counts,
) -> Result<Scan<'a>, Refusal>
    ensures { (w c l o : List ℕ) → Sound (record_in counts w c l o) → Takes (take_target (net_of (record_in counts w c l o)) (tree_of tree.entry) payload.now) result w c l o }
{
    match payload {
        [bits] => Ok(Scan {
            due: Due::End,
            counts,
            contents: Contents {
                tree,
                ask: Asked::Target(*bits),
            },
        }),
        _ => Err(Refusal::TooLarge),
    }
}

// Stays: lists that fit are enough; each field is read into those that it fills.
// A field whose tag is allowed.
fn take_field<'a>(
    scan: &Scan<'a>,
    field: &Field<'a>,
    weights: &mut [u8],
    leg_counts: &mut [u8],
    legs: &mut [u16],
    outputs: &mut [u16],
) -> Result<Scan<'a>, Refusal>
    requires room { Room weights.old leg_counts.old legs.old outputs.old }
    requires sound { Sound (record_in scan.now.counts weights.old leg_counts.old legs.old outputs.old) }
    ensures { Takes (take_field (reading_of scan.now (record_in scan.now.counts weights.old leg_counts.old legs.old outputs.old)) (tag_number field.now.tag) field.now.payload.now) result weights.new leg_counts.new legs.new outputs.new }
{
    let payload = field.payload;
    let counts = scan.counts;
    let tree = scan.contents.tree;
    match field.tag {
        Tag::Weights => take_weights(payload, weights),
        Tag::Leaf => take_leaf(payload, counts, leg_counts, legs),
        Tag::Outputs => take_outputs(payload, counts, outputs),
        Tag::Tree => take_tree(payload, counts),
        Tag::Flags => take_flags(tree, payload, counts),
        Tag::Target => take_target(tree, payload, counts),
    }
}

// Stays: lists that fit are enough. Where the next field begins is known from the one before only, which may be refused.
/// Reads a network file into lists with room for any network, field after field, until one is refused or the file ends. The lists are the
/// file's network then, as far as they are counted, whatever they held before; after a refusal they may hold anything.
pub fn read_fields<'a>(
    file: &'a [u8],
    weights: &mut [u8],
    leg_counts: &mut [u8],
    legs: &mut [u16],
    outputs: &mut [u16],
) -> Result<(Counts, Contents<'a>), Refusal>
    requires { Room weights.old leg_counts.old legs.old outputs.old }
    ensures { FinishedIn file.now result weights.new leg_counts.new legs.new outputs.new }
{
    let none = Counts {
        index_count: 0,
        leaf_count: 0,
        output_count: 0,
    };
    let mut scan = bare(Due::Weights, none);
    let mut rest = file;
    while !rest.is_empty() {
        let field = split_field(scan.due, rest)?;
        scan = take_field(&scan, &field, weights, leg_counts, legs, outputs)?;
        rest = field.rest;
    }
    if !scan.due.may_end() {
        return Err(Refusal::Truncated);
    }
    Ok((scan.counts, scan.contents))
}

/// Reads a network file into a record, which is the file's network then, whatever it held before; after a refusal it may hold anything.
pub fn read_network<'a>(file: &'a [u8], network: &mut Network) -> Result<Contents<'a>, Refusal>
    ensures { Finished file.now result network.new }
{
    let (counts, contents) = read_fields(
        file,
        &mut network.weights,
        &mut network.leg_counts,
        &mut network.legs,
        &mut network.outputs,
    )?;
    network.index_count = counts.index_count;
    network.leaf_count = counts.leaf_count;
    network.output_count = counts.output_count;
    Ok(contents)
}
