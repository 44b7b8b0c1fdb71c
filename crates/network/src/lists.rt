// What an accepted network is read by, and how it is made: by the check.
ghost use Rattle.std.specs.Prelude.{◌≡◌, ◌<◌, ◌≤◌, length, IfOk, IfErr, Some};
ghost use Rattle.spec.specs.Network.{refusal_of, leaf_count, index_count, legs};
ghost use Rattle.spec.specs.Layout.{network_of};
ghost use Rattle.network.specs.Lists.{HasRows, lists_net};
ghost use Rattle.network.specs.Checks.{Fitting};
ghost use Rattle.network.specs.Views.{net_in};

use crate::{Accepted, Network, checks, scan};
use spec::Refusal;

impl<'a> Accepted<'a> {
    /// The network of lists, unless it is refused. Each leaf has a row of 32 places in `legs`.
    // Stays: makes an `Accepted` of lists that come apart from outside.
    pub fn of_lists(
        weights: &'a [u8],
        leg_counts: &'a [u8],
        legs: &'a [u16],
        outputs: &'a [u16],
    ) -> Result<Accepted<'a>, Refusal>
        requires { HasRows leg_counts.now legs.now }
        ensures ok { IfOk result (λ a. net_in a ≡ lists_net weights.now leg_counts.now legs.now outputs.now) }
        ensures err { IfErr result (λ r. refusal_of (lists_net weights.now leg_counts.now legs.now outputs.now) ≡ Some r) }
    {
        checks::check_lists(weights, leg_counts, legs, outputs)?;
        Ok(Accepted {
            weights,
            leg_counts,
            legs,
            outputs,
        })
    }

    /// The network of lists of which the first places are in use, as many as `counts` says of weights, leaves and outputs, unless it is refused.
    // Stays: makes an `Accepted` of lists that come apart from outside, with their counts.
    pub fn of_counts(
        counts: (usize, usize, usize),
        weights: &'a [u8],
        leg_counts: &'a [u8],
        legs: &'a [u16],
        outputs: &'a [u16],
    ) -> Result<Accepted<'a>, Refusal>
        requires { Fitting counts.0 counts.1 counts.2 weights.now leg_counts.now legs.now outputs.now }
        ensures ok { IfOk result (λ a. net_in a ≡ network_of counts.0 counts.1 counts.2 weights.now leg_counts.now legs.now outputs.now) }
        ensures err { IfErr result (λ r. refusal_of (network_of counts.0 counts.1 counts.2 weights.now leg_counts.now legs.now outputs.now) ≡ Some r) }
    {
        let (m, n, o) = counts;
        if checks::is_too_large(m, n, o, leg_counts) {
            return Err(Refusal::TooLarge);
        }
        Accepted::of_lists(&weights[..m], &leg_counts[..n], legs, &outputs[..o])
    }

    /// How many indices the network has.
    #[inline]
    pub fn index_count(&self) -> usize
        ensures { result ≡ index_count (net_in self.now) }
    {
        self.weights.len()
    }

    /// How many leaves the network has.
    #[inline]
    pub fn leaf_count(&self) -> usize
        ensures { result ≡ leaf_count (net_in self.now) }
    {
        self.leg_counts.len()
    }

    /// The indices of leaf `i`.
    #[inline]
    pub fn leaf(&self, i: usize) -> &'a [u16]
        requires { i < length self.now.leg_counts.now }
        ensures { result.now ≡ legs (net_in self.now) i }
    {
        let (leg_counts, legs) = (self.leg_counts, self.legs);
        scan::leaf(leg_counts, legs, i)
    }
}
