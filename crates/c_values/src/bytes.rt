//! Bytes that are written into a buffer of the caller's.
ghost use Rattle.c_values.specs.Bytes.{Wrote};

use crate::fault::Fault;

/// Copies the bytes to the front of the buffer. Fails with `ShortBuffer` if they don't fit, and the
/// buffer stays as it was. Either way `needed` is the number of bytes.
pub fn put(bytes: &[u8], buffer: &mut [u8], needed: &mut usize) -> Result<(), Fault>
    ensures { Wrote bytes.now result buffer.old buffer.new needed.new }
{
    *needed = bytes.len();
    if buffer.len() < bytes.len() {
        return Err(Fault::ShortBuffer);
    }
    buffer[..bytes.len()].copy_from_slice(bytes);
    Ok(())
}
