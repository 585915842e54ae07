//! Searches in bytes.
ghost use Rattle.std.specs.Prelude.{◌≡◌, ◌≤◌, ◌==◌, length};
ghost use Rattle.std.specs.List.{position_or_len};

/// Returns the first position of a byte, or the length if the byte does not occur.
pub(crate) fn first_or_len(byte: u8, bytes: &[u8]) -> usize
    ensures value { result ≡ position_or_len (λ b. b == byte) bytes.now }
    ensures within { result ≤ length bytes.now }
{
    match memchr::memchr(byte, bytes) {
        Some(at) => at,
        None => bytes.len(),
    }
}
