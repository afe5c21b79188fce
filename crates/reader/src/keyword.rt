//! The words that the language keeps for itself.
ghost use Rattle.meaning.specs.Grammar.{keywords};
ghost use Rattle.reader.specs.Classes.{Reserved};

use super::class::{Class, Starter};
use code::Builtin;

// The keywords, each with its class; the crate names has a list of its own, where the reason stands.
const KEYWORDS: [(&[u8], Class); 17] = [
    (b"module", Class::Other),
    (b"fn", Class::Other),
    (b"case", Class::Start(Starter::Case)),
    (b"receive", Class::Start(Starter::Receive)),
    (b"until", Class::Other),
    (b"catch", Class::Start(Starter::Catch)),
    (b"spawn", Class::Start(Starter::Spawn)),
    (b"send", Class::Builtin(Builtin::Send)),
    (b"self", Class::Builtin(Builtin::Itself)),
    (b"link", Class::Builtin(Builtin::Link)),
    (b"exit", Class::Builtin(Builtin::Exit)),
    (b"trap", Class::Builtin(Builtin::Trap)),
    (b"show", Class::Builtin(Builtin::Show)),
    (b"name", Class::Builtin(Builtin::Register)),
    (b"where", Class::Builtin(Builtin::Whereis)),
    (b"swap", Class::Builtin(Builtin::Swap)),
    (b"_", Class::Start(Starter::Underscore)),
];

/// The class of a keyword; `None` where the word is none.
pub fn keyword(word: &[u8]) -> Option<Class>
    ensures { Reserved keywords word.now result }
{
    KEYWORDS
        .iter()
        .find(|(keyword, _)| *keyword == word)
        .map(|(_, class)| *class)
}
