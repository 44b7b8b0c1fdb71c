// The lists of a network that passes the check, as its ghost field says: the check makes it, and all that plan and price read it.
ghost use Rattle.network.specs.Lists.{Holds};

/// An accepted network: at most 128 leaves of at most 32 indices each, at most 256 indices of 0 to 8 bits, at most 32 outputs; every index
/// that a leaf or the outputs name is one of the network's, and none is named twice by one of them.
// Stays: lists of four lengths: one place an index, one a leaf, a row of 32 a leaf, one an output.
#[derive(Clone, Copy)]
pub struct Accepted<'a> {
    /// the weight of each index, in bits
    pub weights: &'a [u8],
    /// how many indices each leaf names
    pub leg_counts: &'a [u8],
    /// the indices of leaf i stand from place 32 i on
    pub legs: &'a [u16],
    pub outputs: &'a [u16],
    ghost holds: { Holds weights.now leg_counts.now legs.now outputs.now },
}
