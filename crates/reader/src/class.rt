//! The classes of tokens.

use code::{Builtin, Operator};

/// What a token is to the grammar, where no quote stands before it.
#[derive(Clone, Copy, PartialEq, Eq, Debug)]
pub enum Class {
    /// 1 to 18 digits.
    Number(u64),
    /// A name.
    Name,
    /// What stands between two operands, but for `::`.
    Operator(Operator),
    /// `::`
    Cons,
    /// `(` or `{`
    Open(Bracket),
    /// `)` or `}`
    Close(Bracket),
    /// The word of a built-in function.
    Builtin(Builtin),
    /// What begins an expression or a pattern.
    Start(Starter),
    /// What stands between two parts.
    Separate(Separator),
    /// No token of the language, or one that stands only where no other can: `]`, `:`, `until`, `module`, `fn`.
    Other,
}

/// The brackets that others stand between.
#[derive(Clone, Copy, PartialEq, Eq, Debug)]
pub enum Bracket {
    /// `(` and `)`
    Paren,
    /// `{` and `}`
    Brace,
}

/// What begins an expression or a pattern.
#[derive(Clone, Copy, PartialEq, Eq, Debug)]
pub enum Starter {
    /// `'`
    Quote,
    /// `[`
    Bracket,
    /// `_`
    Underscore,
    /// `case`
    Case,
    /// `receive`
    Receive,
    /// `catch`
    Catch,
    /// `spawn`
    Spawn,
}

/// What stands between two parts.
#[derive(Clone, Copy, PartialEq, Eq, Debug)]
pub enum Separator {
    /// `,`
    Comma,
    /// `;`
    Semicolon,
    /// `=`
    Equals,
    /// `->`
    Arrow,
}
