#![tactic(auto)]
//! The rebuild after a search: whether it happens, and the nodes that it writes.
ghost use Rattle.std.specs.Prelude.{◌≡◌, ◌+◌, ◌^◌, ◌<◌, ◌≤◌, MatchOption, length};
ghost use Rattle.spec.specs.Undercut.{undercuts};
ghost use Rattle.spec.specs.Tree.{pairs_of};
ghost use Rattle.laws.specs.ArrayRebuild.{write, build_array};
ghost use Rattle.frontier.specs.Opens.{freed};
ghost use Rattle.subset.specs.Walk.{split_at};
ghost use Rattle.subset.specs.Regions.{region_of};
ghost use Rattle.rebuild.specs.Writes.{with_pair, wrote, IsTaken, part_of};

/// Is `best`, as f64, below `old` × (1 − 1e-9) in f64.
// Stays: a comparison of f64 is a form that a rule of the project names; std has no `From` of a `u64` for an f64.
pub fn undercuts(best: u64, old: u64) -> bool
    requires { (best < 2 ^ 53) × (old < 2 ^ 53) }
    ensures { result ≡ undercuts best old }
{
    (best as f64) < (old as f64) * (1.0 - 1e-9)
}

// Gives node `v`, of `n` leaves, its children.
// Stays: `n` is the number of leaves; the C interface lends the tree as a flat list, two children a node.
fn put_node(kids: &mut [u16], n: usize, v: u16, left: u16, right: u16)
    ensures { pairs_of kids.new ≡ with_pair (pairs_of kids.old) n v left right }
{
    let at = usize::from(v).saturating_sub(n) * 2;
    cells::put(kids, at, left);
    cells::put(kids, at + 1, right);
}

/// The freed nodes' numbers that are left to take: the first `left` of a list, the last of these first.
// Stays: a slice cut shorter at each number has no place for a `left` past its end, whose numbers are 0, as the definition has them.
#[derive(Drop)]
pub struct Freed<'a> {
    nodes: &'a [u16],
    left: usize,
}

impl<'a> Freed<'a> {
    /// The first `left` numbers of a list. Past its end they are 0.
    pub fn front(nodes: &'a [u16], left: usize) -> Freed<'a>
        ensures nodes { result.nodes.now ≡ nodes.now }
        ensures left { result.left ≡ left }
    {
        Freed { nodes, left }
    }

    /// All numbers of a list.
    pub fn of(nodes: &'a [u16]) -> Freed<'a>
        ensures nodes { result.nodes.now ≡ nodes.now }
        ensures left { result.left ≡ length nodes.now }
    {
        Freed::front(nodes, nodes.len())
    }

    /// Takes a number, if one is left.
    pub fn take(&mut self) -> Option<u16>
        ensures { IsTaken self.old self.new result }
    {
        if self.left == 0 {
            return None;
        }
        self.left -= 1;
        Some(cells::get_or(self.nodes, self.left, 0))
    }
}

// A node over two that are built: it takes a freed number.
// Stays: `n` is the number of the tree's leaves, no list's length.
fn join_node(free: &mut Freed, kids: &mut [u16], n: usize, first: u16, second: u16) -> u16
    ensures list { free.new.nodes.now ≡ free.old.nodes.now }
    ensures joined { wrote kids.new free.new.nodes.now result free.new.left ≡ write n (pairs_of kids.old) first second (freed free.old.nodes.now free.old.left) }
{
    match free.take() {
        Some(v) => {
            put_node(kids, n, v, first, second);
            v
        }
        None => 0,
    }
}

// The part of the mask `s`, if it is split.
// Stays: a word of the list of parts, as the part that a mask is split by; std has no `From` of a `u64` for a `usize`.
fn part_of(part: &[u64], s: usize) -> Option<usize>
    ensures { result ≡ part_of (split_at part.now) s }
{
    let l = cells::get_or(part, s, 0) as usize;
    if l == 0 {
        return None;
    }
    if l < s { Some(l) } else { None }
}

/// Builds the tree over the members of the mask `s` that the list of parts describes, and returns its number: its left part first, then its right part,
/// then the node over both. It falls with the mask.
// Stays: recursion is a form that a rule of the project names; `n` is the number of leaves; a mask is a place here and a word of digits there.
pub fn build(
    part: &[u64],
    s: usize,
    members: &[u16],
    free: &mut Freed,
    kids: &mut [u16],
    n: usize,
) -> u16
    requires { 1 ≤ s }
    ensures list { free.new.nodes.now ≡ free.old.nodes.now }
    ensures built { wrote kids.new free.new.nodes.now result free.new.left ≡ build_array n members.now (region_of (split_at part.now) s) (freed free.old.nodes.now free.old.left) (pairs_of kids.old) }
{
    match part_of(part, s) {
        None => cells::get_or(members, bits::low(s as u64), 0),
        Some(l) => {
            let first = build(part, l, members, free, kids, n);
            let second = build(part, s - l, members, free, kids, n);
            join_node(free, kids, n, first, second)
        }
    }
}
