#![tactic(auto)]
// Networks as records: limits, what a record stands for, the check by number, networks made step by step, and accepted networks.
ghost use Rattle.std.specs.Prelude.{◌≡◌, [], IfOk, IfErr, Some};
ghost use Rattle.spec.specs.Network.{refusal_of, accepting};
ghost use Rattle.network.specs.Record.{net_of};
ghost use Rattle.spec.specs.Building.{if_accepted, add_weight, add_leaf, add_output};
ghost use Rattle.network.specs.Additions.{Adds};
ghost use Rattle.network.specs.Views.{net_in};

use spec::Refusal;

mod accepted; // accepted.rt: an accepted network
pub mod scan; // scan.rt: searches of lists that are lent
pub mod checks; // checks.rt: the check by number, on lists that are lent
mod lists; // lists.rt: how an accepted network is made and read

pub use accepted::Accepted;

/// A record. The places of its arrays past the counts are no part of the network.
// Stays: a record of fixed memory: four arrays of four lengths.
#[derive(Clone, Copy)]
pub struct Network {
    pub index_count: usize,
    pub leaf_count: usize,
    pub output_count: usize,
    pub weights: [u8; Network::MAX_INDICES],
    pub leg_counts: [u8; Network::MAX_LEAVES],
    // the indices of leaf i stand from place 32 i on
    pub legs: [u16; Network::MAX_LEAVES * Network::MAX_LEGS],
    pub outputs: [u16; Network::MAX_OUTPUTS],
}

impl Network {
    pub const MAX_LEAVES: usize = 128;

    pub const MAX_INDICES: usize = 256;

    pub const MAX_LEGS: usize = 32;

    pub const MAX_OUTPUTS: usize = 32;

    pub const MAX_WEIGHT: u8 = 8;

    /// The network without indices, leaves and outputs.
    pub fn empty() -> Self
        ensures { net_of result ≡ record { leaves = []; outputs = []; weights = [] } }
    {
        Self {
            index_count: 0,
            leaf_count: 0,
            output_count: 0,
            weights: [0; Self::MAX_INDICES],
            leg_counts: [0; Self::MAX_LEAVES],
            legs: [0; Self::MAX_LEAVES * Self::MAX_LEGS],
            outputs: [0; Self::MAX_OUTPUTS],
        }
    }

    /// The check of any record, whatever it holds: all of `TooLarge` first, then `Overweight`, `OutOfRange`, `Repeated`.
    pub fn check(&self) -> Result<(), Refusal>
        ensures { result ≡ accepting (net_of self.now) }
    {
        self.accepted()?;
        Ok(())
    }

    /// The record's lists, unless the network is refused.
    pub fn accepted(&self) -> Result<Accepted<'_>, Refusal>
        ensures ok { IfOk result (λ a. net_in a ≡ net_of self.now) }
        ensures err { IfErr result (λ r. refusal_of (net_of self.now) ≡ Some r) }
    {
        let counts = (self.index_count, self.leaf_count, self.output_count);
        Accepted::of_counts(
            counts,
            &self.weights,
            &self.leg_counts,
            &self.legs,
            &self.outputs,
        )
    }

    /// One index more, of the given weight in bits, 0 to 8. It is refused as the network with it would be, and the record stays then.
    pub fn add_weight(&mut self, weight: u8) -> Result<(), Refusal>
        ensures { Adds (add_weight (net_of self.old) weight) result self.old self.new }
    {
        let m = self.index_count;
        if m >= Self::MAX_INDICES {
            return Err(Refusal::TooLarge);
        }
        let mut next = *self;
        next.weights[m] = weight;
        next.index_count = m + 1;
        self.settle(&next)
    }

    /// One leaf more, of the given indices. It is refused as the network with it would be, and the record stays then.
    pub fn add_leaf(&mut self, leaf: &[u16]) -> Result<(), Refusal>
        ensures { Adds (add_leaf (net_of self.old) leaf.now) result self.old self.new }
    {
        let n = self.leaf_count;
        if checks::is_too_large(self.index_count, n, self.output_count, &self.leg_counts) {
            return Err(Refusal::TooLarge);
        }
        if n >= Self::MAX_LEAVES {
            return Err(Refusal::TooLarge);
        }
        if leaf.len() > Self::MAX_LEGS {
            return Err(Refusal::TooLarge);
        }
        let mut next = *self;
        // Stays: the length fits, as is tested above, so `try_from` would have a refusal that never comes.
        next.leg_counts[n] = leaf.len() as u8;
        cells::place(&mut next.legs, n * Self::MAX_LEGS, leaf);
        next.leaf_count = n + 1;
        self.settle(&next)
    }

    /// One output more. It is refused as the network with it would be, and the record stays then.
    pub fn add_output(&mut self, index: u16) -> Result<(), Refusal>
        ensures { Adds (add_output (net_of self.old) index) result self.old self.new }
    {
        let o = self.output_count;
        if o >= Self::MAX_OUTPUTS {
            return Err(Refusal::TooLarge);
        }
        let mut next = *self;
        next.outputs[o] = index;
        next.output_count = o + 1;
        self.settle(&next)
    }

    // Takes the record `next` over, if it is accepted.
    fn settle(&mut self, next: &Network) -> Result<(), Refusal>
        ensures { Adds (if_accepted (net_of next.now)) result self.old self.new }
    {
        next.check()?;
        *self = *next;
        Ok(())
    }
}
