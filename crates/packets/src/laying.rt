//! Puts what was put together into a caller's bytes.
ghost use Rattle.packets.specs.Laying.{Laid};

use codec::Piece;

/// Puts a piece at the front of these bytes, and returns how many it has. Without room for it,
/// nothing changes, and the result is 0.
pub(crate) fn lay(to: &mut [u8], piece: &Piece) -> usize
    ensures { Laid piece.now to.old to.new result }
{
    let bytes = piece.as_slice();
    if bytes.len() > to.len() {
        return 0;
    }
    to[..bytes.len()].copy_from_slice(bytes);
    bytes.len()
}
