// The front of one piece of bytes, from a place on, put at the front of another.

ghost use Rattle.std.specs.Prelude.{◌≡◌, ◌++◌, length, take, drop, min};

/// Puts as many of `from` at the front of `to` as it has room for, and answers how many; what
/// stands behind them in `to` stays.
pub(crate) fn put_front(from: &[u8], to: &mut [u8]) -> usize
    ensures count { result ≡ min (length from.now) (length to.old) }
    ensures put { to.new ≡ take result from.now ++ drop result to.old }
{
    let count = from.len().min(to.len());
    to[..count].copy_from_slice(&from[..count]);
    count
}

/// What stands from place `at` on; nothing where `at` is past the end.
pub(crate) fn from_place(bytes: &[u8], at: u64) -> &[u8]
    ensures { result.now ≡ drop at bytes.now }
{
    let start = bytes.len().min(at as usize);
    &bytes[start..]
}
