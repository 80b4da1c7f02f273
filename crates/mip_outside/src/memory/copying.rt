//! Bytes copied into a slice that may be shorter.

ghost use Rattle.std.specs.Prelude.{◌≡◌, ◌+◌, ◌<◌, ◌≤◌, [], ◌++◌, length, take, drop, min};

/// Copies as many bytes to the front as have room there, and says how many.
pub fn copy_front(into: &mut [u8], from: &[u8]) -> usize
    ensures count { result ≡ min (length from.now) (length into.new) }
    ensures front { take result into.new ≡ take result from.now }
{
    let count = from.len().min(into.len());
    into[..count].copy_from_slice(&from[..count]);
    count
}

/// Copies from a place on.
pub fn copy_from(into: &mut [u8], bytes: &[u8], at: usize) -> usize
    requires { at ≤ length bytes.now }
    ensures within { result ≤ length into.new }
    ensures inside { at + result ≤ length bytes.now }
    ensures front { drop at bytes.now ≡ take result into.new ++ drop (at + result) bytes.now }
    ensures end { result ≡ 0 → 0 < length into.new → drop at bytes.now ≡ [] }
{
    copy_front(into, &bytes[at..])
}
