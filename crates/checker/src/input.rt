//! Reading a text.
ghost use Rattle.std.specs.Prelude.{◌≡◌, ◌<◌, ◌≤◌, length, take, IfOk, IfSome};

use super::failure::Failure;
use std::io;
use std::io::Read;

/// The most bytes that a text may have.
pub const LIMIT: usize = 32768;

/// A buffer of this size takes a text that is too long far enough to see that it is.
pub const ROOM: usize = LIMIT + 1;

/// Reads a text to its end into the buffer, and says how long it is; refuses one that is longer than a text may be.
///
/// Each read asks for all the room that is left, since some sources drop what one read leaves of a message.
pub fn read_text<R: Read>(source: &mut R, buffer: &mut [u8]) -> Result<usize, Failure>
    ensures within { IfOk result (λ n. (n ≤ length buffer.new) × (n ≤ 32768)) }
    ensures whole { IfOk result (λ n. n < length buffer.new
        → IfSome (R.remaining source.old) (λ bytes. take n buffer.new ≡ bytes)) }
{
    let length = fill(source, buffer).map_err(Failure::Input)?;
    if length > LIMIT {
        return Err(Failure::TooLong);
    }
    Ok(length)
}

// Reads until the buffer is full or the source ends, and says how many bytes came.
fn fill<R: Read>(source: &mut R, buffer: &mut [u8]) -> io::Result<usize>
    ensures within { IfOk result (λ n. n ≤ length buffer.new) }
    ensures whole { IfOk result (λ n. n < length buffer.new
        → IfSome (R.remaining source.old) (λ bytes. take n buffer.new ≡ bytes)) }
{
    let mut filled = 0;
    while filled < buffer.len() {
        let count = source.read(&mut buffer[filled..])?;
        if count == 0 {
            break;
        }
        filled += count;
    }
    Ok(filled)
}
