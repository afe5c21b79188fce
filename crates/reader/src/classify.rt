//! What a token is to the grammar.
ghost use Rattle.std.specs.Prelude.{◌≡◌, false, [], ◌∷◌};
ghost use Rattle.meaning.specs.Tokens.{is_letter};
ghost use Rattle.tokens.specs.Cutting.{Proper, sign_bytes, spelling};
ghost use Rattle.reader.specs.Classes.{Classified, ClassifiedFree, ClassifiedWord};

use super::class::{Bracket, Class, Separator, Starter};
use super::keyword::keyword;
use super::numeral::number;
use code::Operator;
use tokens::{LONGEST_NAME, Sign, Token};

/// What a token of a text is to the grammar, where no quote stands before it.
pub fn class_of(token: Token<'_>) -> Class
    ensures { Proper token.entry → Classified (spelling token.entry) result }
{
    match token {
        Token::Word(word) => word_class(word),
        Token::Sign(sign) => sign_class(sign),
        Token::Byte(byte) => byte_class(byte),
    }
}

// The class of a word of letters, digits and `_`.
fn word_class(word: &[u8]) -> Class
    ensures { ClassifiedWord word.now result }
{
    keyword(word).unwrap_or_else(|| free_word_class(word))
}

// The class of a word that is no keyword.
fn free_word_class(word: &[u8]) -> Class
    ensures { ClassifiedFree word.now result }
{
    let [first, ..] = word else {
        return Class::Other;
    };
    if word.len() > LONGEST_NAME {
        return Class::Other;
    }
    if !first.is_ascii_digit() {
        return Class::Name;
    }
    number(word).map_or(Class::Other, Class::Number)
}

// The class of a sign of two bytes.
fn sign_class(sign: Sign) -> Class
    ensures { Classified (sign_bytes sign) result }
{
    match sign {
        Sign::Arrow => Class::Separate(Separator::Arrow),
        Sign::DoubleColon => Class::Cons,
        Sign::Equal => Class::Operator(Operator::Equal),
        Sign::Unequal => Class::Operator(Operator::Unequal),
        Sign::AtMost => Class::Operator(Operator::AtMost),
    }
}

// The class of a byte that stands alone and is no letter.
fn byte_class(byte: u8) -> Class
    ensures { is_letter byte ≡ false → Classified (byte ∷ []) result }
{
    match byte {
        b'<' => Class::Operator(Operator::Less),
        b'+' => Class::Operator(Operator::Plus),
        b'-' => Class::Operator(Operator::Minus),
        b'*' => Class::Operator(Operator::Times),
        b'/' => Class::Operator(Operator::Divide),
        b'%' => Class::Operator(Operator::Modulo),
        b'(' => Class::Open(Bracket::Paren),
        b'{' => Class::Open(Bracket::Brace),
        b')' => Class::Close(Bracket::Paren),
        b'}' => Class::Close(Bracket::Brace),
        b',' => Class::Separate(Separator::Comma),
        b';' => Class::Separate(Separator::Semicolon),
        b'=' => Class::Separate(Separator::Equals),
        b'\'' => Class::Start(Starter::Quote),
        b'[' => Class::Start(Starter::Bracket),
        _ => Class::Other,
    }
}
