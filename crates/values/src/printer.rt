//! Printing a value: its text is measured first, so that one that does not fit leaves the output as it was.

ghost use Rattle.std.specs.Prelude.{◌≡◌, ◌+◌, ◌≤◌, length, MatchResult};
ghost use Rattle.std.specs.Bool.{OnFalse};
ghost use Rattle.values.specs.Print.{laid, Laid, LeftAlone, Measured, Printed, UnprintedValue};

use crate::names::Names;
use crate::piece::ROOM;
use crate::walk::{Cursor, Unprinted, Walk};
use store::{Slot, Stack};

/// A value to be printed: the words that it stands in, its slot there, and the names of its atoms.
#[derive_where(Clone, Copy)]
pub struct Text<'a, N> {
    pub words: &'a [u32],
    pub slot: Slot,
    pub names: &'a N,
}

impl<N: Names> Text<'_, N> {
    /// Writes the text into `out` from `at` on, and gives the place behind it.
    ///
    /// Refuses where the text is longer than the room, or the value is nested deeper than `scratch` has cells, and
    /// leaves the output as it was then.
    pub fn print(&self, scratch: &mut [u32], out: &mut [u8], at: usize) -> Result<usize, Unprinted>
        ensures cases { MatchResult result
            (λ end. Printed (N.Names.table self.now.names.now) self.now.words.now self.now.slot
            out.old out.new at end)
            (λ why. UnprintedValue (N.Names.table self.now.names.now) self.now.words.now self.now.slot
            at (length out.old) scratch.old why) }
        ensures alone { MatchResult result (λ _. Unit {0})
            (λ _. LeftAlone (N.Names.table self.now.names.now) self.now.words.now self.now.slot
            out.old out.new) }
    {
        self.lay::<false>(scratch, out, at)?;
        self.lay::<true>(scratch, out, at)
    }

    /// Where the text would end that begins at `at`; writes it there too if `WRITES`.
    fn lay<const WRITES: bool>(
        &self,
        scratch: &mut [u32],
        out: &mut [u8],
        at: usize,
    ) -> Result<usize, Unprinted>
        ensures cases { MatchResult result
            (λ end. Measured (N.Names.table self.now.names.now) self.now.words.now self.now.slot
            at (length out.old) scratch.old end
            × Laid WRITES (N.Names.table self.now.names.now) self.now.words.now self.now.slot
            out.old out.new at)
            (λ why. UnprintedValue (N.Names.table self.now.names.now) self.now.words.now self.now.slot
            at (length out.old) scratch.old why) }
        ensures unwritten { OnFalse WRITES (out.new ≡ out.old) }
    {
        if at > out.len() {
            return Err(Unprinted::TooLong);
        }
        let stack = Stack::new(scratch);
        let mut walk = Walk {
            words: self.words,
            stack,
            cursor: Cursor {
                next: Some(self.slot),
                closing: 0,
            },
        };
        let mut buffer = [0; ROOM];
        let mut end = at;
        while let Some(piece) = walk.advance()? {
            let bytes = piece.bytes(self.names, &mut buffer);
            if bytes.len() > out.len() - end {
                return Err(Unprinted::TooLong);
            }
            put::<WRITES>(out, end, bytes);
            end += bytes.len();
        }
        Ok(end)
    }
}

/// Puts bytes where there is room for them, if `WRITES`.
fn put<const WRITES: bool>(out: &mut [u8], at: usize, bytes: &[u8])
    requires { at + length bytes.now ≤ length out.old }
    ensures { out.new ≡ laid WRITES out.old at bytes.now }
{
    if WRITES {
        out[at..at + bytes.len()].copy_from_slice(bytes);
    }
}
