//! Pieces of a text, and the bytes of each.

ghost use Rattle.std.specs.Prelude.{◌≡◌};
ghost use Rattle.meaning.specs.Values.{decimal};
ghost use Rattle.values.specs.Pieces.{piece_text, worker_text};

use crate::names::Names;
use crate::value::{Atom, WorkerId};
use itoa::write_digits;

/// The length of the longest text that is made: 20 digits, and a sign on either side.
pub const ROOM: usize = 22;

/// Bytes for the text of a piece.
pub type Buffer = [u8; ROOM];

/// A part of a text that is written at once.
#[derive(Clone, Copy, Debug, PartialEq, Eq)]
pub enum Piece {
    Sign(u8),
    Signs(u8, u8),
    /// Brackets that close as many pairs, at most as many as the buffer holds.
    Closing(usize),
    Number(i64),
    Atom(Atom),
    Worker(WorkerId),
}

impl Piece {
    /// The bytes of the piece, which are made in `buffer` where the table of names has none.
    pub fn bytes<'a, N: Names>(self, names: &'a N, buffer: &'a mut Buffer) -> &'a [u8]
        ensures { result.now ≡ piece_text (N.Names.table names.now) self }
    {
        match self {
            Piece::Sign(a) => {
                buffer[0] = a;
                &buffer[..1]
            }
            Piece::Signs(a, b) => {
                buffer[0] = a;
                buffer[1] = b;
                &buffer[..2]
            }
            Piece::Closing(count) => {
                *buffer = [b']'; ROOM];
                &buffer[..count.min(ROOM)]
            }
            Piece::Number(n) => number_bytes(n, buffer),
            Piece::Atom(atom) => names.name(atom),
            Piece::Worker(WorkerId(n)) => worker_bytes(n, buffer),
        }
    }
}

/// The text of a number, with its sign.
fn number_bytes(n: i64, buffer: &mut Buffer) -> &[u8]
    ensures { result.now ≡ decimal n }
{
    let start = write_digits(n.unsigned_abs(), buffer, ROOM);
    if n < 0 {
        let sign = start - 1;
        buffer[sign] = b'-';
        return &buffer[sign..];
    }
    &buffer[start..]
}

/// The text of a worker, `<` and its number and `>`.
fn worker_bytes(n: u64, buffer: &mut Buffer) -> &[u8]
    ensures { result.now ≡ worker_text n }
{
    buffer[ROOM - 1] = b'>';
    let sign = write_digits(n, buffer, ROOM - 1) - 1;
    buffer[sign] = b'<';
    &buffer[sign..]
}
