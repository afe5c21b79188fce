//! Lines and columns, for messages.
ghost use Rattle.std.specs.Prelude.{[], ◌∷◌, take};
ghost use Rattle.tokens.specs.Position.{Behind, Passes};

/// A line and a column of a text, each counted from 1.
#[derive(Clone, Copy, PartialEq, Eq, Debug)]
pub struct Position {
    pub line: usize,
    pub column: usize,
}

impl Position {
    /// Where a text begins.
    pub const START: Position = Position { line: 1, column: 1 };

    /// Where the byte with the number `at` stands in the text; past the end, where the text ends.
    pub fn in_text(text: &[u8], at: usize) -> Position
        ensures { Behind (take at text.now) result.line result.column }
    {
        let end = at.min(text.len());
        Position::START.past(&text[..end])
    }

    /// The position behind these bytes, where they stand at this one.
    pub fn past(self, bytes: &[u8]) -> Position
        ensures { Passes self.line self.column bytes.now result.line result.column }
    {
        bytes
            .iter()
            .fold(self, |position, byte| position.past_byte(*byte))
    }

    // The position behind one byte.
    fn past_byte(self, byte: u8) -> Position
        ensures { Passes self.line self.column (byte ∷ []) result.line result.column }
    {
        if byte == b'\n' {
            Position {
                line: self.line.saturating_add(1),
                column: 1,
            }
        } else {
            Position {
                column: self.column.saturating_add(1),
                ..self
            }
        }
    }
}
