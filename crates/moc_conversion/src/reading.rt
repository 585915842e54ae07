//! Reads an input in pieces or as a whole, and splits it at a semicolon.
ghost use Rattle.std.specs.Prelude.{◌≡◌, ◌<◌, ◌≤◌, ◌↔◌, ◌⊎◌, false, IfErr, IfOk, IsErrOf, IsTrue, length};
ghost use Rattle.moc_devices.specs.Devices.{Delivers, IsEnded};
ghost use Rattle.moc_conversion.specs.Conversion.{FailsReading};
ghost use Rattle.moc_conversion.specs.Private.Pieces.{ReadsPiece, IsSplit};

use crate::error::InputError;
use memchr::memchr;
use moc_devices::{BUFFER_SIZE, Source};
use std::alloc::{AllocError, Global};

/// The maximal number of bytes of a text, 1 GiB.
pub(crate) const INPUT_LIMIT: usize = 1_073_741_824;

/// The maximal number of bytes of a text that is converted, 16 MiB.
pub(crate) const CONVERSION_LIMIT: usize = 16_777_216;

/// Allocates a buffer for one piece.
pub(crate) fn buffer(alloc: Global) -> Result<Vec<u8>, AllocError>
    ensures { IfOk result (λ v. 0 < length v.items) }
{
    vec![in alloc; 0u8; BUFFER_SIZE]
}

/// Reads one more piece and appends it to the text. Returns whether there was one.
pub(crate) fn read_chunk<R: Source>(
    input: &mut R,
    buffer: &mut [u8],
    text: &mut Vec<u8>,
) -> Result<bool, InputError>
    requires capacity { 0 < length buffer.old }
    requires input { R.mark input.old ≡ false }
    ensures read { IsErrOf result InputError.Read ↔ IsTrue (R.mark input.new) }
    ensures error { IfErr result (λ e. (e ≡ InputError.Read) ⊎ (e ≡ InputError.Memory)) }
    ensures reads_more { IfOk result (λ some.
        ReadsPiece (R.reading input.old) text.old.items (R.reading input.new) text.new.items some) }
{
    let Ok(count) = input.read(buffer) else {
        return Err(InputError::Read);
    };
    text.extend_from_slice(&buffer[..count])?;
    Ok(count > 0)
}

/// Returns all bytes of an input that has at most `limit` bytes; fails with `TooLong` for a longer one. Reads in large
/// pieces into one buffer.
pub(crate) fn read_whole<R: Source>(
    alloc: Global,
    limit: usize,
    input: &mut R,
) -> Result<Vec<u8>, InputError>
    requires { R.mark input.old ≡ false }
    ensures read { IsErrOf result InputError.Read ↔ IsTrue (R.mark input.new) }
    ensures error { IfErr result (FailsReading limit (R.reading input.old) (R.reading input.new)) }
    ensures whole { IfOk result (λ v. Delivers (R.reading input.old) (R.reading input.new) v.items
        × IsEnded (R.reading input.new) × (length v.items ≤ limit)) }
{
    let mut buffer = buffer(alloc)?;
    let mut text = Vec::new(alloc);
    while text.len() <= limit {
        if !read_chunk(input, &mut buffer, &mut text)? {
            return Ok(text);
        }
    }
    Err(InputError::TooLong { number: None })
}

/// Splits bytes at the first semicolon, if there is one: returns the bytes before it and after it.
pub(crate) fn split_at_semicolon(bytes: &[u8]) -> Option<(&[u8], &[u8])>
    ensures { IsSplit bytes.now result }
{
    let at = memchr(b';', bytes)?;
    Some((&bytes[..at], &bytes[at + 1..]))
}
