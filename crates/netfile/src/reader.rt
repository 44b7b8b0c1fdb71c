// The reader's inner functions: what the lists need, and what they are filled with.
ghost use Rattle.std.specs.Prelude.{◌≡◌, ℕ, ◌≤◌, ltb, length, [], ◌∷◌, OnOk};
ghost use Rattle.spec.specs.Refusal.{first};
ghost use Rattle.spec.specs.Calls.{length_check};
ghost use Rattle.spec.specs.File.{tree_lent, flags_lent, read_of};
ghost use Rattle.network.specs.Record.{net_of};
ghost use Rattle.payloads.specs.Payload.{verdict};
ghost use Rattle.fields.specs.Scans.{tree_of, ask_of, contents_of};
ghost use Rattle.netfile.specs.Answers.{given_in, given_of, network_in, tree_after, flags_after};
ghost use Rattle.netfile.specs.Writes.{lacking, kids_over, flags_over, FlagsFit};
ghost use Rattle.netfile.specs.Results.{room_for};

use crate::{Ask, Given};
use fields::{Asked, Contents};
use network::Network;
use spec::Refusal;

// Stays: `network.now.leaf_count ≤ 128`: a record may hold any count; that the fields' reader counts no more leaves is its promise, which these two are handed.

// How many places the tree's list has to have: two for each node, if the file has a tree.
fn tree_needs(tree: Option<&[u8]>, network: &Network) -> usize
    requires { network.now.leaf_count ≤ 128 }
    ensures { (places : ℕ) → ltb places result ≡ lacking (tree_lent (net_of network.now) places (tree_of tree.entry)) }
{
    match tree {
        None => 0,
        Some(_) => {
            let nodes = network.leaf_count.saturating_sub(1);
            nodes + nodes
        }
    }
}

// How many places the flags' list has to have: one for each index, if the file has flags.
fn flags_need(ask: Asked, network: &Network) -> usize
    ensures { (places : ℕ) → ltb places result ≡ lacking (flags_lent (net_of network.now) places (ask_of ask.entry)) }
{
    match ask {
        Asked::Plain | Asked::Target(_) => 0,
        Asked::Flagged(_) => network.index_count,
    }
}

// The lists that are filled, of so many places.
pub fn check_room(
    contents: &Contents,
    network: &Network,
    places: usize,
    flag_places: usize,
) -> Result<(), Refusal>
    requires { network.now.leaf_count ≤ 128 }
    ensures { result ≡ verdict (first (length_check (room_for places flag_places (contents_of contents.now network.now)) ∷ [])) }
{
    if places < tree_needs(contents.tree, network) {
        return Err(Refusal::ShortBuffer);
    }
    if flag_places < flags_need(contents.ask, network) {
        return Err(Refusal::ShortBuffer);
    }
    Ok(())
}

// Stays: the children are written here, and checked where they are used.
// Writes the children to the front of the tree's list, if the file has a tree.
pub fn put_tree(kids: Option<&[u8]>, tree: &mut [u16])
    ensures { tree.new ≡ kids_over (tree_of kids.entry) tree.old }
{
    if let Some(bytes) = kids {
        payloads::place(tree, 0, bytes);
    }
}

// Writes the flags to the front of the flags' list, and 0 up to one for each of m indices, if the file has flags.
pub fn put_flags(ask: Asked, m: usize, flags: &mut [u8])
    requires { FlagsFit (ask_of ask) m (length flags.old) }
    ensures { flags.new ≡ flags_over m (ask_of ask.entry) flags.old }
{
    if let Asked::Flagged(given) = ask {
        let n = given.len();
        payloads::put_bytes(flags, given);
        if n < m {
            cells::fill(&mut flags[n..m], 0);
        }
    }
}

// What is answered of the contents.
pub fn given(contents: &Contents) -> Given
    ensures { result ≡ given_in (tree_of contents.now.tree) (ask_of contents.now.ask) }
{
    Given {
        tree: contents.tree.map(|kids| kids.len()),
        ask: match contents.ask {
            Asked::Plain => Ask::Plain,
            Asked::Flagged(flags) => Ask::Flagged(flags.len()),
            Asked::Target(bits) => Ask::Target(bits),
        },
    }
}

// Stays: the tree's list is written here, and checked where it is used.
// Reads a network file. After a refusal both lists stay as they are, and the record may hold anything.
pub fn read(
    file: &[u8],
    network: &mut Network,
    tree: &mut [u16],
    flags: &mut [u8],
) -> Result<Given, Refusal>
    ensures answer { result ≡ given_of (read_of (length tree.old) (length flags.old) file.now) }
    ensures network { OnOk result (net_of network.new ≡ network_in (read_of (length tree.old) (length flags.old) file.now)) }
    ensures tree { tree.new ≡ tree_after (read_of (length tree.old) (length flags.old) file.now) tree.old }
    ensures flags { flags.new ≡ flags_after (read_of (length tree.old) (length flags.old) file.now) flags.old }
{
    let contents = fields::read_network(file, network)?;
    check_room(&contents, network, tree.len(), flags.len())?;
    put_tree(contents.tree, tree);
    put_flags(contents.ask, network.index_count, flags);
    Ok(given(&contents))
}
