//! The numbers that words are.
ghost use Rattle.std.specs.Prelude.{◌≡◌, ◌-◌, ◌<◌, true, false, MatchOption};
ghost use Rattle.meaning.specs.Tokens.{is_digit};
ghost use Rattle.grammar.specs.Classes.{number_of};
ghost use Rattle.reader.specs.Classes.{option_means};

// The digits that a number has at most.
const MOST_DIGITS: usize = 18;

/// The number that a word of 1 to 18 digits is; `None` where it is no such word.
pub fn number(word: &[u8]) -> Option<u64>
    ensures { option_means result ≡ number_of word.now }
{
    if word.is_empty() || word.len() > MOST_DIGITS {
        return None;
    }
    // No `try_fold`: that the number fits follows from how many digits were read.
    let mut value = 0;
    for byte in word {
        value = value * 10 + digit(*byte)?;
    }
    Some(value)
}

// The digit that the byte is.
fn digit(byte: u8) -> Option<u64>
    ensures { MatchOption result (is_digit byte ≡ false) (λ d. (is_digit byte ≡ true) × (d ≡ byte - 48) × (d < 10)) }
{
    char::from(byte).to_digit(10).map(u64::from)
}
