// Searches of lists that are lent, each left at the first find.
ghost use Rattle.std.specs.Prelude.{◌≡◌, ltb};
ghost use Rattle.spec.specs.Lists.{anyb};
ghost use Rattle.spec.specs.Network.{repeats, any_out_of_range};
ghost use Rattle.spec.specs.Layout.{row_at};
ghost use Rattle.network.specs.Checks.{Row, Rows, leaves_of};
// Stays: `counts: &[u8], legs: &[u16]`, `Rows n counts.now legs.now`: these lists are being checked here; `Accepted` holds them once they pass.

use crate::Network;

/// Is a byte above the limit.
// Stays: the one call of `any` is given a name, by which the check of weights and that of leg counts both ask it.
pub fn above(bytes: &[u8], limit: u8) -> bool
    ensures { result ≡ anyb (λ k. ltb limit k) bytes.now }
{
    bytes.iter().any(|&k| limit < k)
}

// Is an index not below the index count m.
// Stays: `m` is the network's number of indices, no length of the row.
pub(crate) fn out_of_range(row: &[u16], m: usize) -> bool
    ensures { result ≡ any_out_of_range m row.now }
{
    row.iter().any(|&j| m <= usize::from(j))
}

// Does an index stand at two places. Both loops are left at the first repeat.
// Stays: a rule of the project names this form: it leaves both of its loops at the first repeat.
pub(crate) fn repeated(row: &[u16]) -> bool
    ensures { result ≡ repeats row.now }
{
    let mut found = false;
    let mut i = 0;
    'search: while i < row.len() {
        let x = row[i];
        let mut j = i + 1;
        while j < row.len() {
            if row[j] == x {
                found = true;
                break 'search;
            }
            j += 1;
        }
        i += 1;
    }
    found
}

/// The indices of leaf `i`.
// Stays: a leaf's row begins at 32 times its number; `Accepted` is not made before the rows are read.
#[inline]
pub fn leaf<'a>(counts: &[u8], legs: &'a [u16], i: usize) -> &'a [u16]
    requires { Row counts.now legs.now i }
    ensures { result.now ≡ row_at counts.now legs.now i }
{
    let at = i * Network::MAX_LEGS;
    let end = at + usize::from(counts[i]);
    &legs[at..end]
}

// Does one of n leaves name an index that is not below m.
// Stays: by number, of which a row's place is made; tried as `any` over the range, the proof did not close.
pub(crate) fn leaves_out_of_range(n: usize, counts: &[u8], legs: &[u16], m: usize) -> bool
    requires { Rows n counts.now legs.now }
    ensures { result ≡ anyb (any_out_of_range m) (leaves_of n counts.now legs.now) }
{
    for i in 0..n {
        if out_of_range(leaf(counts, legs, i), m) {
            return true;
        }
    }
    false
}

// Does one of n leaves name an index twice.
// Stays: by number, as `leaves_out_of_range` is, and for the same reason.
pub(crate) fn leaves_repeated(n: usize, counts: &[u8], legs: &[u16]) -> bool
    requires { Rows n counts.now legs.now }
    ensures { result ≡ anyb repeats (leaves_of n counts.now legs.now) }
{
    for i in 0..n {
        if repeated(leaf(counts, legs, i)) {
            return true;
        }
    }
    false
}
