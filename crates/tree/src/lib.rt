#![tactic(auto)]
// Trees of a network, as entries that ask nothing of their caller: the tree check, the step order, sameness of plans.
ghost use Rattle.std.specs.Prelude.{◌≡◌, ◌≤◌, ◌-◌, length};
ghost use Rattle.network.specs.Record.{net_of};
ghost use Rattle.spec.specs.Calls.{plain_words, workspace_after, ordered_steps, valid_call, order_call, same_call};
ghost use Rattle.tree.specs.Answers.{counted, valid_in, order_in, ordered, same_in, compared};
// Stays: `network: &Network, tree: &[u16]`, `tree: &[u16], other: &[u16]`, `kids: &[u16], n: usize`, `n: usize, ws: &mut [u64]`, `ws: &mut [u64], out: &mut [u16]`: lists from outside that are still to be checked, each lent for one call.
// Stays: `n ≤ 512`, `n ≤ 128`, `2048 ≤ length ws.old`, `n - 1 ≤ length out.old`: what the walks ask of a list that is no `Tree` yet, and of the lists that they write.

use network::Network;
use spec::Refusal;
use walk::Tree;

// The tree check for `n` leaves.
// Stays: the list is being checked here, and is no `Tree` yet; its network says how many leaves it is to have.
fn valid_in(tree: &[u16], n: usize, ws: &mut [u64]) -> Result<(), Refusal>
    requires { n ≤ 512 }
    ensures answer { result ≡ valid_in n (length ws.old) tree.now }
    ensures words { ws.new ≡ workspace_after plain_words (valid_in n (length ws.old) tree.now) ws.old }
{
    let words = walk::stated();
    if ws.len() < words {
        return Err(Refusal::ShortBuffer);
    }
    let checked = Tree::check(tree, n, &mut ws[..words]);
    cells::clear(ws, words);
    checked?;
    Ok(())
}

/// Is `tree`, two places an internal node, a valid tree of the network: `InvalidTree` if it is not.
// Stays: the list is being checked here, and is no `Tree` yet; its network says how many leaves it is to have.
pub fn is_valid(network: &Network, tree: &[u16], ws: &mut [u64]) -> Result<(), Refusal>
    ensures answer { result ≡ valid_call (net_of network.now) (length ws.old) tree.now }
    ensures words { ws.new ≡ workspace_after plain_words (valid_call (net_of network.now) (length ws.old) tree.now) ws.old }
{
    let network = network.accepted()?;
    valid_in(tree, network.leaf_count(), ws)
}

// The step order of a tree of `n` leaves, the tree check first. The first 2,048 words of `ws` are used, whatever they hold.
// Stays: the list is being checked here, and is no `Tree` yet; its network says how many leaves it is to have.
fn ordered(kids: &[u16], n: usize, ws: &mut [u64], out: &mut [u16]) -> Result<usize, Refusal>
    requires { (n ≤ 512) × (2048 ≤ length ws.old) × (n - 1 ≤ length out.old) }
    ensures answer { result ≡ counted (ordered n kids.now) }
    ensures steps { out.new ≡ ordered_steps (ordered n kids.now) out.old }
{
    let tree = Tree::check(kids, n, ws)?;
    Ok(tree.post_order(ws, out))
}

// The step order for `n` leaves.
// Stays: the list is being checked here, and is no `Tree` yet; its network says how many leaves it is to have.
fn order_in(tree: &[u16], n: usize, ws: &mut [u64], out: &mut [u16]) -> Result<usize, Refusal>
    requires { n ≤ 512 }
    ensures answer { result ≡ counted (order_in n (length ws.old) (length out.old) tree.now) }
    ensures words { ws.new ≡ workspace_after plain_words (order_in n (length ws.old) (length out.old) tree.now) ws.old }
    ensures steps { out.new ≡ ordered_steps (order_in n (length ws.old) (length out.old) tree.now) out.old }
{
    let words = walk::stated();
    if ws.len() < words {
        return Err(Refusal::ShortBuffer);
    }
    if out.len() < n.saturating_sub(1) {
        return Err(Refusal::ShortBuffer);
    }
    let answer = ordered(tree, n, &mut ws[..words], out);
    cells::clear(ws, words);
    answer
}

/// Writes the internal nodes of a valid tree of the network to the front of `out`, each after its left and then its right child's; returns how
/// many they are.
// Stays: the list is being checked here, and is no `Tree` yet; its network says how many leaves it is to have.
pub fn post_order(
    network: &Network,
    tree: &[u16],
    ws: &mut [u64],
    out: &mut [u16],
) -> Result<usize, Refusal>
    ensures answer { result ≡ counted (order_call (net_of network.now) (length ws.old) (length out.old) tree.now) }
    ensures words { ws.new ≡ workspace_after plain_words (order_call (net_of network.now) (length ws.old) (length out.old) tree.now) ws.old }
    ensures steps { out.new ≡ ordered_steps (order_call (net_of network.now) (length ws.old) (length out.old) tree.now) out.old }
{
    let network = network.accepted()?;
    order_in(tree, network.leaf_count(), ws, out)
}

// Whether two trees of `n` leaves are the same plan, the tree checks first. The first 2,048 words of `ws` are used, whatever they hold.
// Stays: the lists are being checked here, and are no `Tree`s yet; `n` is how many leaves each is to have.
fn compare(tree: &[u16], other: &[u16], n: usize, ws: &mut [u64]) -> Result<bool, Refusal>
    requires { (n ≤ 128) × (2048 ≤ length ws.old) }
    ensures { result ≡ compared n tree.now other.now }
{
    Tree::check(tree, n, ws)?;
    Tree::check(other, n, ws)?;
    Ok(leafsets::same_valid(tree, other, n, ws))
}

// Sameness for `n` leaves.
// Stays: the sameness of two plans; their lists are being checked here, and are no `Tree`s yet.
fn same_in(tree: &[u16], other: &[u16], n: usize, ws: &mut [u64]) -> Result<bool, Refusal>
    requires { n ≤ 128 }
    ensures answer { result ≡ same_in n (length ws.old) tree.now other.now }
    ensures words { ws.new ≡ workspace_after plain_words (same_in n (length ws.old) tree.now other.now) ws.old }
{
    let words = walk::stated();
    if ws.len() < words {
        return Err(Refusal::ShortBuffer);
    }
    let answer = compare(tree, other, n, &mut ws[..words]);
    cells::clear(ws, words);
    answer
}

/// Are two trees of the network the same plan: the leaf sets below their internal nodes coincide.
// Stays: the sameness of two plans; their lists are being checked here, and are no `Tree`s yet.
pub fn same_plan(
    network: &Network,
    tree: &[u16],
    other: &[u16],
    ws: &mut [u64],
) -> Result<bool, Refusal>
    ensures answer { result ≡ same_call (net_of network.now) (length ws.old) tree.now other.now }
    ensures words { ws.new ≡ workspace_after plain_words (same_call (net_of network.now) (length ws.old) tree.now other.now) ws.old }
{
    let network = network.accepted()?;
    same_in(tree, other, network.leaf_count(), ws)
}
