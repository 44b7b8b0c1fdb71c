// What a network file has beside its network.
// Stays: counts of a network, one of each kind; other types of this shape hold other numbers.
/// How many indices, leaves and outputs a network has.
#[derive(Clone, Copy)]
pub struct Counts {
    pub index_count: usize,
    pub leaf_count: usize,
    pub output_count: usize,
}

/// What a network file asks.
#[derive(Clone, Copy)]
pub enum Asked<'a> {
    /// nothing more
    Plain,
    /// a plan with these flags
    Flagged(&'a [u8]),
    /// slicing to a target of so many bits
    Target(u8),
}

/// What a network file has beside its network. The lists are parts of the file.
#[derive(Clone, Copy)]
pub struct Contents<'a> {
    /// the children of the given tree
    pub tree: Option<&'a [u8]>,
    pub ask: Asked<'a>,
}
