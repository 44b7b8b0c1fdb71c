#![tactic(auto)]
// Trees as flat lists of children, two places a node: the tree check and the step order. The stacks are in the lent workspace.
ghost use Rattle.std.specs.Prelude.{false, not, ◌≡◌, ℕ, ◌+◌, ◌-◌, ◌*◌, ◌<◌, ◌≤◌, length, get_or, set, true, IfOk, IfErr};
ghost use Rattle.spec.specs.Memory.{over};
ghost use Rattle.spec.specs.Tree.{valid, pairs_of, step_order};
ghost use Rattle.spec.specs.Calls.{plain_words, wrong_tree};
ghost use Rattle.spec.specs.declared.Refusal.TheVariants.{InvalidTree};
ghost use Rattle.walk.specs.Stack.{pushed, pushed_both, picked};
ghost use Rattle.walk.specs.Marks.{fresh, marked, fresh_both, marked_both};
// Stays: `kids: &[u16], n: usize`, `wrong_tree n kids.now ≡ false`, `n ≤ 512`: a list that is still to be checked, or that its caller knows to be a tree and has made no `Tree` of; in `Tree` the two facts are ghost fields.
// Stays: `n: usize, ws: &mut [u64]`, `ws: &mut [u64], out: &mut [u16]`, `2048 ≤ length ws.old`, `2048 ≤ length words.old`, `n - 1 ≤ length out.old`: lists that a caller lends for one call; a struct of them would be made and taken apart in each.
// Stays: `l: usize, r: usize`: the two children of a node, read from two places and used once.

use spec::Refusal;

mod valid; // valid.rt: a tree that passed the check

pub use valid::Tree;

/// The stated workspace of a tree's calls, in words.
pub fn stated() -> usize
    ensures { result ≡ plain_words }
{
    4096
}

// The number of an internal node, or else the other one.
// Stays: the node on top of a stack, where `first` of `scores`, which chooses in the same way, names a slot of a pair; one name for both could say neither.
fn pick(n: usize, x: usize, other: usize) -> usize
    ensures { result ≡ picked n x other }
{
    if x < n { other } else { x }
}

// The places of the stack once an internal node is on it; a leaf stays out.
fn push(n: usize, p: usize, x: usize) -> usize
    requires { p < 4096 }
    ensures { result ≡ pushed n p x }
{
    if x < n { p } else { p + 1 }
}

// The top of the stack, which is the node to be visited, and the stack's places, the top's included.
// Stays: the node on top of a stack and the stack's places; one type for these and for another two numbers would name neither.
#[derive(Clone, Copy)]
struct Top {
    node: usize,
    places: usize,
}

// The stack with the two children of its top in place of it, the right one above. What is under the top stands from word 1,024 on, `p` places.
// Stays: the stack lies in lent words, and no `From` goes between `u64` and `usize`; `n` is the number of leaves.
fn next(ws: &mut [u64], n: usize, p: usize, l: usize, r: usize) -> Top
    requires { (p < 1024) × (2048 ≤ length ws.old) }
    ensures { (result.node ≡ picked n r (picked n l (get_or ws.old (1023 + p) 0))) × (result.places ≡ pushed_both n p l r) × (ws.new ≡ set ws.old (1024 + p) l) }
{
    let under = ws[1023 + p] as usize;
    ws[1024 + p] = l as u64;
    Top {
        node: pick(n, r, pick(n, l, under)),
        places: push(n, push(n, p, l), r),
    }
}

// Marks the number `x` in `ws`, unless it is above the root's or is marked already.
fn mark(ws: &mut [u64], root: usize, x: usize) -> bool
    requires { root < length ws.old }
    ensures { (result ≡ fresh ws.old root x) × (ws.new ≡ marked ws.old root x) }
{
    if root < x {
        return false;
    }
    if ws[x] != 0 {
        return false;
    }
    ws[x] = 1;
    true
}

// Marks both children of a node.
fn mark_both(ws: &mut [u64], root: usize, l: usize, r: usize) -> bool
    requires { root < length ws.old }
    ensures { (result ≡ fresh_both ws.old root l r) × (ws.new ≡ marked_both ws.old root l r) }
{
    if !mark(ws, root, l) {
        return false;
    }
    mark(ws, root, r)
}

// Whether a walk from the root meets every number once and none above the root's: the numbers met are marked, the internal nodes among
// them that are still to be visited are on the stack.
// Stays: a stack is walked until it is empty, so no iterator gives the turns; a node has two places of the list, which is no `Tree` yet.
fn meets_all(kids: &[u16], n: usize, ws: &mut [u64]) -> bool
    requires { (2 ≤ n) × (n ≤ 512) × (length kids.now ≡ n * 2 - 2) × (2048 ≤ length ws.old) × ((k : ℕ) → k < n * 2 → get_or ws.old k 0 ≡ 0) }
    ensures { result ≡ valid n (pairs_of kids.now) }
{
    let root = n * 2 - 2;
    ws[root] = 1;
    let mut v = root;
    let mut p: usize = 1;
    let mut met: usize = 1;
    while 0 < p {
        let j = (v - n) * 2;
        let l = usize::from(kids[j]);
        let r = usize::from(kids[j + 1]);
        if !mark_both(ws, root, l, r) {
            return false;
        }
        let top = next(ws, n, p - 1, l, r);
        v = top.node;
        p = top.places;
        met += 2;
    }
    met == root + 1
}

/// Whether `kids` is a tree of `n` leaves. Only the first 2,048 words of `ws` are used, whatever they hold.
// Stays: the list is being checked here, and is no `Tree` yet; `n` is how many leaves it is to have.
pub fn is_tree(kids: &[u16], n: usize, ws: &mut [u64]) -> bool
    requires { (n ≤ 512) × (2048 ≤ length ws.old) }
    ensures { result ≡ not (wrong_tree n kids.now) }
{
    if n < 2 {
        return kids.len() == 0;
    }
    if kids.len() != n * 2 - 2 {
        return false;
    }
    cells::clear(ws, n * 2);
    meets_all(kids, n, ws)
}

// Fills `out` up to place n - 1 from there down: a node, then its right child's nodes, then its left child's.
// Stays: by place from the last one down, as nothing is known of what a reversed `iter_mut` writes; a node has two places, and its number fits.
fn fill_order(kids: &[u16], n: usize, ws: &mut [u64], out: &mut [u16])
    requires { (2 ≤ n) × (n ≤ 512) × (wrong_tree n kids.now ≡ false) × (2048 ≤ length ws.old) × (n - 1 ≤ length out.old) }
    ensures { out.new ≡ over out.old (step_order kids.now n) }
{
    let mut v = n * 2 - 2;
    let mut p: usize = 1;
    for rest in (0..n - 1).rev() {
        out[rest] = v as u16;
        let j = (v - n) * 2;
        let left = usize::from(kids[j]);
        let right = usize::from(kids[j + 1]);
        let top = next(ws, n, p - 1, left, right);
        v = top.node;
        p = top.places;
    }
}

/// Writes the step order of a tree of `n` leaves to the front of `out`: the internal nodes, each after its left and then its right child's.
/// Returns how many they are. Only the first 2,048 words of `ws` are used, whatever they hold.
// Stays: asks no more of its callers than a list that is a tree of `n` leaves.
pub fn post_order(kids: &[u16], n: usize, ws: &mut [u64], out: &mut [u16]) -> usize
    requires { (n ≤ 512) × (wrong_tree n kids.now ≡ false) × (2048 ≤ length ws.old) × (n - 1 ≤ length out.old) }
    ensures { (result ≡ n - 1) × (out.new ≡ over out.old (step_order kids.now n)) }
{
    if n < 2 {
        return 0;
    }
    fill_order(kids, n, ws, out);
    n - 1
}

impl<'a> Tree<'a> {
    /// The tree of `leaves` leaves in `kids`, two places an internal node, unless the list is no tree of them. Only the first 2,048 words of
    /// `words` are used, whatever they hold.
    // Stays: the list comes from outside and is being checked here.
    pub fn check(kids: &'a [u16], leaves: usize, words: &mut [u64]) -> Result<Tree<'a>, Refusal>
        requires { (leaves ≤ 512) × (2048 ≤ length words.old) }
        ensures ok { IfOk result (λ t. (t.kids.now ≡ kids.now) × (t.leaves ≡ leaves)) }
        ensures err { IfErr result (λ r. (r ≡ InvalidTree) × (wrong_tree leaves kids.now ≡ true)) }
    {
        if !is_tree(kids, leaves, words) {
            return Err(Refusal::InvalidTree);
        }
        Ok(Tree { kids, leaves })
    }

    /// Writes the step order to the front of `out`: the internal nodes, each after its left and then its right child's. Returns how many
    /// they are. Only the first 2,048 words of `words` are used, whatever they hold.
    pub fn post_order(&self, words: &mut [u64], out: &mut [u16]) -> usize
        requires { (2048 ≤ length words.old) × (self.now.leaves - 1 ≤ length out.old) }
        ensures { (result ≡ self.now.leaves - 1) × (out.new ≡ over out.old (step_order self.now.kids.now self.now.leaves)) }
    {
        post_order(self.kids, self.leaves, words, out)
    }
}
