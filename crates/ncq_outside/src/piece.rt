//! The next piece of a byte string, copied into a buffer.
ghost use Rattle.std.specs.Prelude.{◌≡◌, ◌≤◌, ◌<◌, ◌+◌, ◌++◌, [], length, take, drop};

/// The bytes from a place on.
fn rest_of(from: &[u8], at: usize) -> &[u8]
    requires { at ≤ length from.now }
    ensures { result.now ≡ drop at from.now }
{
    &from[at..]
}

/// Copies the next bytes of `from`, those from `at` on, to the front of `to`. It gives their
/// number: at most `most`, and 0 only where `from` ends at `at`.
pub(crate) fn give(from: &[u8], at: usize, to: &mut [u8], most: usize) -> usize
    requires within { at ≤ length from.now }
    requires room { 0 < length to.old }
    requires some { 0 < most }
    ensures bytes { drop at from.now ≡ take result to.new ++ drop (at + result) from.now }
    ensures end { result ≡ 0 → drop (at + result) from.now ≡ [] }
    ensures fits { result ≤ length to.new }
    ensures small { result ≤ most }
    ensures stays { at + result ≤ length from.now }
{
    let rest = rest_of(from, at);
    let count = rest.len().min(to.len()).min(most);
    to[..count].copy_from_slice(&rest[..count]);
    count
}
