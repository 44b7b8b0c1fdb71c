#![tactic(auto)]
//! The frontier of a node: members are opened, the first of most work first, until there are as many as asked for.
ghost use Rattle.std.specs.Prelude.{◌≡◌, ◌+◌, ◌-◌, ◌<◌, ◌≤◌, None, length, set, take};
ghost use Rattle.spec.specs.Memory.{filled};
ghost use Rattle.frontier.specs.Costs.{cost_below};
ghost use Rattle.frontier.specs.Opens.{more_rank, ranks, state, open_at, open_most, openings};

/// A member's place, and its work bits.
// Stays: a member's place and its work bits; one type for this and for another two numbers could name neither.
#[derive(Clone, Copy)]
pub struct Most {
    pub place: usize,
    pub work: u16,
}

// The node `v` at `place`, if it has more work than the one so far. A leaf has none.
// Stays: `n` is the number of the tree's leaves; both are read of the caller's, for one node.
fn more_work(most: Option<Most>, place: usize, v: u16, n: usize, works: &[u16]) -> Option<Most>
    ensures { result ≡ more_rank n works.now most place v }
{
    let node = usize::from(v);
    if node < n {
        return most;
    }
    let work = cells::get_or(works, node, 0);
    if let Some(other) = most {
        if work <= other.work {
            return most;
        }
    }
    Some(Most { place, work })
}

// The first of the members that has the most work, if one is no leaf.
// Stays: `n` is the number of the tree's leaves, no list's length.
fn most_work(members: &[u16], n: usize, works: &[u16]) -> Option<Most>
    ensures { result ≡ ranks n works.now None 0 members.now }
{
    let mut most = None;
    for (p, &v) in members.iter().enumerate() {
        most = more_work(most, p, v, n, works);
    }
    most
}

// Opens the member at place `p` of `m`: the last takes its place, then its left and its right child follow.
// Stays: `n` is the number of the tree's leaves; the C interface lends the tree as a flat list, two children a node.
fn open(kids: &[u16], n: usize, members: &mut [u16], opened: &mut [u16], m: usize, p: usize)
    requires { (1 ≤ m) × (m ≤ 65536) }
    ensures { state members.new opened.new (m + 1) ≡ open_at kids.now n p (state members.old opened.old m) }
{
    let v = cells::get_or(members, p, 0);
    let at = usize::from(v).saturating_sub(n) * 2;
    let last = cells::get_or(members, m - 1, 0);
    cells::put(members, p, last);
    cells::put(members, m - 1, cells::get_or(kids, at, 0));
    cells::put(members, m, cells::get_or(kids, at + 1, 0));
    cells::put(opened, m - 1, v);
}

// Opens the first of the `m` members that has the most work, if one is no leaf, and returns how many there then are.
// Stays: `n` is the number of the tree's leaves; members and opened nodes are written while the tree is read.
fn open_most(
    kids: &[u16],
    n: usize,
    works: &[u16],
    members: &mut [u16],
    opened: &mut [u16],
    m: usize,
) -> usize
    requires { (1 ≤ m) × (m ≤ 65536) × (m ≤ length members.old) }
    ensures { state members.new opened.new result ≡ open_most kids.now works.now n (state members.old opened.old m) }
{
    match most_work(&members[..m], n, works) {
        Some(most) => {
            open(kids, n, members, opened, m, most.place);
            m + 1
        }
        None => m,
    }
}

/// Opens members of the node `v`, until there are `k` or only leaves are left, and returns how many there are. They are put to the front of `members`, and the
/// nodes opened for them to the front of `opened`.
// Stays: a step repeated, over no list; the tree is read and two arrays are written that are no `Frontier` before all is opened, and may be longer than its own.
pub fn open_all(
    kids: &[u16],
    n: usize,
    works: &[u16],
    k: usize,
    v: u16,
    members: &mut [u16],
    opened: &mut [u16],
) -> usize
    requires { (1 ≤ k) × (k ≤ length members.old) × (k ≤ 65536) }
    ensures counts { (1 ≤ result) × (result ≤ k) }
    ensures opens { state members.new opened.new result ≡ openings kids.now works.now n (k - 1) (state (set members.old 0 v) opened.old 1) }
{
    cells::put(members, 0, v);
    let mut m: usize = 1;
    for i in 0..k - 1 {
        m = open_most(kids, n, works, members, opened, m);
    }
    m
}

/// The frontier of a node: `count` members at the front of `members`, and the nodes opened for them at the front of `opened`, one less.
// Stays: two lists of two lengths, of which the second is one shorter.
#[derive(Clone, Copy)]
pub struct Frontier {
    members: [u16; 12],
    opened: [u16; 12],
    count: usize,
    ghost few: { (1 ≤ count) × (count ≤ 12) },
}

impl Frontier {
    /// The frontier of node `v` of the tree `kids` of `n` leaves, of at most `k` members. Each node's work bits are at hand.
    // Stays: `n` is the number of the tree's leaves; the two arrays have different lengths in use.
    pub fn of(kids: &[u16], n: usize, works: &[u16], k: usize, v: u16) -> Frontier
        requires { (1 ≤ k) × (k ≤ 12) }
        ensures { state result.members result.opened result.count ≡ openings kids.now works.now n (k - 1) (state (set (filled 12 0) 0 v) (filled 12 0) 1) }
    {
        let mut members = [0; 12];
        let mut opened = [0; 12];
        let count = open_all(kids, n, works, k, v, &mut members, &mut opened);
        Frontier {
            members,
            opened,
            count,
        }
    }

    /// The members' numbers.
    pub fn members(&self) -> &[u16]
        ensures { result.now ≡ take self.now.count self.now.members }
    {
        &self.members[..self.count]
    }

    /// The numbers of the opened nodes, the first opened first.
    pub fn opened(&self) -> &[u16]
        ensures { result.now ≡ take (self.now.count - 1) self.now.opened }
    {
        &self.opened[..self.count - 1]
    }
}

/// What the first `c` opened nodes cost: 2 to the work bits of each.
// Stays: by number, as a place past the list's end counts too: it is read as node 0.
pub fn old_cost(works: &[u16], opened: &[u16], c: usize) -> u64
    requires { cost_below works.now opened.now c < 9007199254740992 }
    ensures { result ≡ cost_below works.now opened.now c }
{
    (0..c)
        .map(|i| {
            let v = usize::from(cells::get_or(opened, i, 0));
            1 << cells::get_or(works, v, 0)
        })
        .sum()
}

/// What all of the opened nodes cost.
pub fn opened_cost(works: &[u16], opened: &[u16]) -> u64
    requires { cost_below works.now opened.now (length opened.now) < 9007199254740992 }
    ensures { result ≡ cost_below works.now opened.now (length opened.now) }
{
    old_cost(works, opened, opened.len())
}
