//! How the queue is used, and what it does on examples: rounds in order, and refusals at the very edge.

#![tactic(auto)]

ghost use Rattle.std.specs.Prelude.{◌≡◌};
ghost use Rattle.queue_tests.specs.Rotate.{Rotated};
ghost use Rattle.std.specs.Result.{MatchResult};

use queue::Queue;
use store::Full;

#[cfg(test)]
mod tests;

/// Sends what stands in front, a worker or the end of the round, to the end of the queue; refuses where there is no room.
pub fn rotate(queue: &mut Queue<'_>) -> Result<(), Full>
    ensures { MatchResult result
        (λ _. Rotated queue.old queue.new)
        (λ _. queue.new ≡ queue.old) }
{
    let Some(number) = queue.first() else {
        queue.turn();
        return Ok(());
    };
    queue.push(number)?;
    let _ = queue.pop();
    Ok(())
}
