//! Which words can be names, and which atoms.

ghost use Rattle.std.specs.Prelude.{◌≡◌};
ghost use Rattle.std.specs.List.{list_all};
ghost use Rattle.meaning.specs.Basics.{listed};
ghost use Rattle.meaning.specs.Grammar.{is_atom, is_name, keywords};
ghost use Rattle.meaning.specs.Tokens.{is_letter};

use tokens::{LONGEST_NAME, is_letter};

/// The words that the language keeps for itself. The reader's own list has a class with each: one list for both would leave
/// this crate with classes that it does not know, or the reader with two arrays side by side.
const KEYWORDS: [&[u8]; 17] = [
    b"module", b"fn", b"case", b"receive", b"until", b"catch", b"spawn", b"send", b"self", b"link",
    b"exit", b"trap", b"show", b"name", b"where", b"swap", b"_",
];

/// Can the word be an atom: 1 to 32 letters, digits and `_`, no digit first?
#[tactic(auto, using(crate::proofs::Keywords::letters_all))]
pub fn is_atom(word: &[u8]) -> bool
    ensures { result ≡ is_atom word.now }
{
    word.len() >= 1 && word.len() <= LONGEST_NAME && all_letters(word) && !word[0].is_ascii_digit()
}

/// Can the word be a name: an atom that is no keyword?
pub fn is_name(word: &[u8]) -> bool
    ensures { result ≡ is_name word.now }
{
    is_atom(word) && !is_keyword(word)
}

/// Is the word one that the language keeps for itself?
fn is_keyword(word: &[u8]) -> bool
    ensures { result ≡ listed word.now keywords }
{
    // No `contains`: that calls a comparison of memory for each, four times as long.
    KEYWORDS.iter().any(|keyword| *keyword == word)
}

/// Are all bytes of the word letters, digits or `_`?
fn all_letters(word: &[u8]) -> bool
    ensures { result ≡ list_all is_letter word.now }
{
    word.iter().all(|byte| is_letter(*byte))
}
