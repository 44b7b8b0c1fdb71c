#![tactic(auto)]
// The network file: its reader and its writer.
ghost use Rattle.std.specs.Prelude.{◌≡◌, length, OnOk, OnErr};
ghost use Rattle.spec.specs.File.{read_of, write_of, buffer_after};
ghost use Rattle.network.specs.Record.{net_of};
ghost use Rattle.fields.specs.Scans.{ask_of};
ghost use Rattle.netwrite.specs.Contents.{kids_of};
ghost use Rattle.netfile.specs.Answers.{flag_count, given_of, empty_network, network_in, tree_after, flags_after};

mod reader; // reader.rt: the reader's inner functions

use fields::Asked;
use network::Network;
use netwrite::Parts;
use spec::Refusal;

/// What the file asks: nothing, its flags, as many as it has, or a target.
#[derive(Clone, Copy, Debug, PartialEq, Eq)]
pub enum Ask {
    Plain,
    Flagged(usize),
    Target(u8),
}

/// What a file that was read has beside its network: how many places of the tree's list its tree fills, if it has one, and what it asks.
#[derive(Clone, Copy, Debug, PartialEq, Eq)]
pub struct Given {
    pub tree: Option<usize>,
    pub ask: Ask,
}

// Stays: the tree's list is written here, and checked where it is used.
/// Reads a network file into a record, whatever it held. A tree's children go to the front of `tree`, flags to the front of `flags`; after a
/// refusal both stay as they are, and the network is the empty one.
pub fn read_network(
    file: &[u8],
    network: &mut Network,
    tree: &mut [u16],
    flags: &mut [u8],
) -> Result<Given, Refusal>
    ensures answer { result ≡ given_of (read_of (length tree.old) (length flags.old) file.now) }
    ensures network { OnOk result (net_of network.new ≡ network_in (read_of (length tree.old) (length flags.old) file.now)) }
    ensures empty { OnErr result (net_of network.new ≡ empty_network) }
    ensures tree { tree.new ≡ tree_after (read_of (length tree.old) (length flags.old) file.now) tree.old }
    ensures flags { flags.new ≡ flags_after (read_of (length tree.old) (length flags.old) file.now) flags.old }
{
    let answer = reader::read(file, network, tree, flags);
    if answer.is_err() {
        *network = Network::empty();
    }
    answer
}

// Stays: the tree comes from outside, and is checked here; buffer and cursor are handed on as they come.
/// Writes the file of a network, of a tree, if there is one, and of what is asked, from the cursor on, and answers the cursor past it; or
/// refuses, in this order, the network by its check, a buffer that is too short, a tree that is not the network's, wrong flags. After a refusal
/// the buffer stays as it is.
pub fn write_network(
    network: &Network,
    tree: Option<&[u16]>,
    ask: Asked,
    out: &mut [u8],
    cursor: usize,
) -> Result<usize, Refusal>
    ensures answer { result ≡ write_of (record { network = net_of network.now; tree = kids_of tree.entry; ask = ask_of ask.entry }) (length out.old) cursor }
    ensures buffer { out.new ≡ buffer_after (record { network = net_of network.now; tree = kids_of tree.entry; ask = ask_of ask.entry }) cursor (write_of (record { network = net_of network.now; tree = kids_of tree.entry; ask = ask_of ask.entry }) (length out.old) cursor) out.old }
{
    let network = network.accepted()?;
    let parts = Parts { network, tree, ask };
    netwrite::write_accepted(&parts, out, cursor)
}

/// How many flags there are.
pub fn flag_count(ask: Ask) -> usize
    ensures { result ≡ flag_count ask }
{
    match ask {
        Ask::Plain => 0,
        Ask::Flagged(count) => count,
        Ask::Target(_) => 0,
    }
}
