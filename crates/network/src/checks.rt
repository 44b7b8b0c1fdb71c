// The check by number, on lists that are lent: all of the counts, then the weights, then the indices' range, then their repeats.
ghost use Rattle.std.specs.Prelude.{◌≡◌, ◌≤◌, length};
ghost use Rattle.spec.specs.Network.{max_leaves, accepting};
ghost use Rattle.network.specs.Checks.{Rows};
ghost use Rattle.network.specs.Codes.{large_of, out_of_range_of, repeat_of};
ghost use Rattle.network.specs.Lists.{HasRows, lists_net};
// Stays: `counts: &[u8], legs: &[u16]`, `leg_counts: &[u8], legs: &[u16]`, `legs: &[u16], outputs: &[u16]`, `weights: &[u8], leg_counts: &[u8]`, `HasRows leg_counts.now legs.now`: these lists are being checked here; `Accepted` holds them once they pass.

use crate::{Network, scan};
use spec::Refusal;

/// Is a count above its limit: of `m` indices, `n` leaves, `o` outputs, and of the indices of each leaf. No list is read past its limit.
// Stays: three counts that no list need have yet; the limit fits a `u8`, as is proved.
pub fn is_too_large(m: usize, n: usize, o: usize, counts: &[u8]) -> bool
    requires { n ≤ max_leaves → n ≤ length counts.now }
    ensures { result ≡ large_of m n o counts.now }
{
    if n > Network::MAX_LEAVES {
        return true;
    }
    if m > Network::MAX_INDICES {
        return true;
    }
    if o > Network::MAX_OUTPUTS {
        return true;
    }
    scan::above(&counts[..n], Network::MAX_LEGS as u8)
}

// Does a leaf, or do the outputs, name an index that is not below m.
// Stays: the lists are being checked here, and are no `Accepted` before.
fn is_out_of_range(m: usize, counts: &[u8], legs: &[u16], outputs: &[u16]) -> bool
    requires { Rows (length counts.now) counts.now legs.now }
    ensures { result ≡ out_of_range_of m (length counts.now) (length outputs.now) counts.now legs.now outputs.now }
{
    if scan::leaves_out_of_range(counts.len(), counts, legs, m) {
        return true;
    }
    scan::out_of_range(outputs, m)
}

// Does a leaf, or do the outputs, name an index twice.
// Stays: the lists are being checked here, and are no `Accepted` before.
fn is_repeated(counts: &[u8], legs: &[u16], outputs: &[u16]) -> bool
    requires { Rows (length counts.now) counts.now legs.now }
    ensures { result ≡ repeat_of (length counts.now) (length outputs.now) counts.now legs.now outputs.now }
{
    if scan::leaves_repeated(counts.len(), counts, legs) {
        return true;
    }
    scan::repeated(outputs)
}

/// The check of lists that are as long as their counts. Each leaf has a row of 32 places in `legs`.
// Stays: the lists are being checked here, and are no `Accepted` before.
pub fn check_lists(
    weights: &[u8],
    leg_counts: &[u8],
    legs: &[u16],
    outputs: &[u16],
) -> Result<(), Refusal>
    requires { HasRows leg_counts.now legs.now }
    ensures { result ≡ accepting (lists_net weights.now leg_counts.now legs.now outputs.now) }
{
    if is_too_large(weights.len(), leg_counts.len(), outputs.len(), leg_counts) {
        return Err(Refusal::TooLarge);
    }
    if scan::above(weights, Network::MAX_WEIGHT) {
        return Err(Refusal::Overweight);
    }
    if is_out_of_range(weights.len(), leg_counts, legs, outputs) {
        return Err(Refusal::OutOfRange);
    }
    if is_repeated(leg_counts, legs, outputs) {
        return Err(Refusal::Repeated);
    }
    Ok(())
}
