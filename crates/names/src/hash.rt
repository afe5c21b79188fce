//! The hash of a word.

ghost use Rattle.std.specs.Prelude.{◌≡◌, ◌<◌};
ghost use Rattle.names.specs.Buckets.{hash_of};

/// How many buckets there are.
pub const BUCKETS: usize = 1024;

/// The bucket of a word.
#[tactic(auto, unfolding(crate::specs::Buckets::hash_of))]
pub fn hash(word: &[u8]) -> usize
    ensures is { result ≡ hash_of word.now }
    ensures below { result < 1024 }
{
    // A fold is no plainer: its closure would have to require that the sum so far is below `BUCKETS`.
    let mut sum: usize = 0;
    for byte in word {
        sum = (31 * sum + *byte as usize) % BUCKETS;
    }
    sum
}
