// The lines of total, widest and sliced indices.
ghost use Rattle.std.specs.Prelude.{cond, ◌∷◌, [], ◌+◌, ◌*◌, ◌<◌, ◌≤◌};
ghost use Rattle.spec.specs.Lists.{keep, range};
ghost use Rattle.spec.specs.Calls.{flag_at};
ghost use Rattle.spec.specs.Text.{lines_of, total_line, widest_line, slice_line};
ghost use Rattle.steplines.specs.Puts.{Puts};

use spec::Total;
use steplines::digits::Text;

// Stays: `text.old.len ≤ 1000000`, `m ≤ 256`: bounds of numbers, so that a sum fits a machine word; types of them would be unwrapped at each line.

/// Puts the line of a total.
pub fn put_total(text: &mut Text, total: Total)
    requires { text.old.len ≤ 1000000 }
    ensures written { Puts text.old (total_line total) text.new }
    ensures short { text.new.len ≤ text.old.len + 86 }
{
    // Stays: a total beyond the limit is printed as a word of its own; `Option` would not say what its `None` is.
    match total {
        Total::Exact(x) => text.put_line(b"total", x),
        Total::Beyond => text.put_bare_line(b"total beyond"),
    }
}

/// Puts the line of the widest table's bits, which is none without leaves.
pub fn put_widest(text: &mut Text, widest: Option<u16>)
    requires { text.old.len ≤ 1000000 }
    ensures written { Puts text.old (widest_line widest) text.new }
    ensures short { text.new.len ≤ text.old.len + 86 }
{
    match widest {
        None => text.put_bare_line(b"widest -"),
        Some(bits) => text.put_line(b"widest", u64::from(bits)),
    }
}

// Stays: std has no From of usize for u64.
// Puts the line of index j, if it is flagged.
fn put_slice(text: &mut Text, flags: &[u8], j: usize)
    requires { (text.old.len ≤ 1048576) × (j < 256) }
    ensures written { Puts text.old (lines_of slice_line (cond (flag_at flags.now j) (j ∷ []) [])) text.new }
    ensures short { text.new.len ≤ text.old.len + 10 }
{
    if cells::get_or(flags, j, 0) != 0 {
        text.put_line(b"slice", j as u64);
    }
}

// Stays: m is the network's count of indices, and an index past the flags' end counts as clear, where an iterator would end.
/// Puts a line for each flagged index, of m in all.
pub fn put_slices(text: &mut Text, flags: &[u8], m: usize)
    requires { (text.old.len ≤ 1000000) × (m ≤ 256) }
    ensures written { Puts text.old (lines_of slice_line (keep (flag_at flags.now) (range m))) text.new }
    ensures short { text.new.len ≤ text.old.len + m * 10 }
{
    for j in 0..m {
        put_slice(text, flags, j);
    }
}
