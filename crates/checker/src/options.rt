//! What the arguments ask for.
ghost use Rattle.std.specs.Prelude.{◌≡◌, codes, MatchOption, ◌≢◌};

use super::failure::Failure;
use std::env;

/// How much is said of the tokens.
#[derive(Clone, Copy)]
pub enum Detail {
    /// How many there are.
    Count,
    /// Each of them, and then how many there are.
    Tokens,
}

impl Detail {
    /// What the program's arguments ask for; refuses those that it does not know.
    pub fn from_arguments(rt: &HostRuntime) -> Result<Detail, Failure> {
        let mut detail = Detail::Count;
        for argument in env::args(rt).map_err(Failure::Arguments)?.skip(1) {
            let asked = Detail::from_argument(argument.as_str());
            detail = asked.ok_or_else(|| Failure::Unknown(argument))?;
        }
        Ok(detail)
    }

    // What one argument asks for; an error of its own would say no more than `None` does.
    fn from_argument(argument: &str) -> Option<Detail>
        ensures { MatchOption result (argument.now ≢ codes "--tokens") (λ d. (d ≡ Detail.Tokens) × (argument.now ≡ codes "--tokens")) }
    {
        (argument == "--tokens").then_some(Detail::Tokens)
    }
}
