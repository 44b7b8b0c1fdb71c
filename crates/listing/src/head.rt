// The listing's head: how many steps, total, widest, slice bits.
ghost use Rattle.std.specs.Prelude.{◌≡◌, ◌≤◌};
ghost use Rattle.spec.specs.Memory.{placed};
ghost use Rattle.spec.specs.Host.{total_bytes, widest_bytes, head_bytes};

// Stays: `at ≤ 65536`: a bound of a place, so that the next one fits a machine word; a type of its own would be unwrapped at each use.

use crate::bytes;
use spec::{Prices, Total};

// Stays: the listing has a byte for each of the two kinds of a total.
fn put_total(out: &mut [u8], at: usize, total: Total)
    requires { at ≤ 65536 }
    ensures { out.new ≡ placed out.old at (total_bytes total) }
{
    match total {
        Total::Exact(x) => bytes::put_marked_eight(out, at, 0, x),
        Total::Beyond => bytes::put_marked_eight(out, at, 1, 0),
    }
}

// Stays: the buffer that a host lends may end before the place, and then nothing is written; a slice from there on would have to exist.
fn put_widest(out: &mut [u8], at: usize, widest: Option<u16>)
    requires { at ≤ 65536 }
    ensures { out.new ≡ placed out.old at (widest_bytes widest) }
{
    match widest {
        None => bytes::put_marked_two(out, at, 0, 0),
        Some(x) => bytes::put_marked_two(out, at, 1, x),
    }
}

/// Writes the head: `steps` steps, and what pricing answered.
pub fn put_head(out: &mut [u8], steps: u16, prices: &Prices)
    ensures { out.new ≡ placed out.old 0 (head_bytes steps prices.now) }
{
    bytes::put_two(out, 0, steps);
    put_total(out, 2, prices.total);
    put_widest(out, 11, prices.widest);
    bytes::put_two(out, 14, prices.slice_bits);
}
