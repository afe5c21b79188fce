//! Whether a statement binds: `e;` and `p = e;` begin alike, so the reader looks ahead for the `=`.
ghost use Rattle.std.specs.Prelude.{◌≡◌, ℕ, ◌+◌, ◌^◌, ◌<◌, List};
ghost use Rattle.meaning.specs.Tokens.{gap, tokens};
ghost use Rattle.grammar.specs.LookAhead.{binds as binding, landmark as token_landmark};
ghost use Rattle.reader.specs.Classes.{class_means};
ghost use Rattle.reader.specs.LookAhead.{Passes, landmark_means};

use super::class::{Class, Separator};
use super::classify::class_of;
use std::ops::ControlFlow;
use tokens::Lexemes;

/// Does the statement that the text begins with bind: is there an `=` outside of brackets before its end?
pub fn binds(text: &[u8]) -> bool
    ensures { result ≡ binding 0 (tokens gap text.now) }
{
    let mut depth = 0;
    for lexeme in Lexemes::new(text) {
        match pass_landmark(depth, landmark_of(class_of(lexeme.token))) {
            ControlFlow::Break(found) => return found,
            ControlFlow::Continue(next) => depth = next,
        }
    }
    false
}

// What a token is to who looks for the `=` of a statement.
#[derive(Clone, Copy)]
enum Landmark {
    Open,
    Close,
    Equals,
    Semicolon,
    Neither,
}

// Goes on behind a landmark so many brackets deep, or stops at the `=` or at the end of the statement.
fn pass_landmark(depth: usize, landmark: Landmark) -> ControlFlow<bool, usize>
    requires { depth + 1 < 2 ^ 64 }
    ensures { Passes depth landmark result }
{
    match (landmark, depth) {
        (Landmark::Open, _) => ControlFlow::Continue(depth + 1),
        (Landmark::Equals, 0) => ControlFlow::Break(true),
        (Landmark::Close | Landmark::Semicolon, 0) => ControlFlow::Break(false),
        (Landmark::Close, _) => ControlFlow::Continue(depth - 1),
        _ => ControlFlow::Continue(depth),
    }
}

// The landmark that a token of the class is.
fn landmark_of(class: Class) -> Landmark
    ensures { (w : List ℕ) → landmark_means result ≡ token_landmark (class_means class w) }
{
    match class {
        Class::Open(_) => Landmark::Open,
        Class::Close(_) => Landmark::Close,
        Class::Separate(Separator::Equals) => Landmark::Equals,
        Class::Separate(Separator::Semicolon) => Landmark::Semicolon,
        _ => Landmark::Neither,
    }
}
