// Sums over lists, modulo 2^32.
ghost use Rattle.std.specs.Prelude.{◌≡◌};
ghost use Rattle.std.specs.List.{FoldsTo};
ghost use Rattle.stored.specs.Sums.{sum_with, AddsAs};

/// The sum with one number more.
pub fn with(sum: u64, x: u64) -> u64
    ensures { result ≡ sum_with sum x }
{
    ((sum % 4294967296) * 65599 + (x % 4294967296) + 1) % 4294967296
}

/// The sum with the numbers of a list.
pub fn with_all<T: Copy + Into<u64>>(sum: u64, list: &[T]) -> u64
    ensures { FoldsTo (AddsAs T.converts) sum list.now result }
{
    let mut s = sum;
    for x in list {
        s = with(s, (*x).into());
    }
    s
}
