//! A line of numbers in lent words, a slot a number.

ghost use Rattle.std.specs.Prelude.{◌≤◌};

use store::{Full, Slot, read_slot, write_slot};
use values::WORKER;

/// The numbers in the slots from `from` up to `upto`; each is the number of its slot, which is a worker's. No
/// `VecDeque`, since the words are lent and nothing may be allocated.
#[derive(Drop)]
pub struct Line<'a> {
    words: &'a mut [u32],
    from: usize,
    upto: usize,
    ghost ordered: { from ≤ upto },
}

impl<'a> Line<'a> {
    ghost use Rattle.std.specs.Prelude.{◌≡◌, ◌+◌, ◌/◌, ◌^◌, ◌<◌, [], ◌∷◌, ◌++◌, length, IsSome, MatchOption, MatchResult};
    ghost use Rattle.queue.specs.Line.{Becomes, front, room, waiting};

    /// A line with no numbers; it has room for one in every three words.
    pub fn new(words: &'a mut [u32]) -> Line<'a>
        ensures none { waiting result ≡ [] }
        ensures from { result.from ≡ 0 }
        ensures room { room result ≡ length words.old / 3 }
    {
        Line {
            words,
            from: 0,
            upto: 0,
        }
    }

    /// Puts a number at the end; refuses where no slot is left behind it.
    pub fn push(&mut self, number: u64) -> Result<(), Full>
        ensures from { self.new.from ≡ self.old.from }
        ensures cases { MatchResult result
            (λ _. (self.old.from + length (waiting self.old) < room self.old)
            × Becomes self.old self.new (waiting self.old ++ number ∷ []))
            (λ _. (room self.old ≤ self.old.from + length (waiting self.old))
            × Becomes self.old self.new (waiting self.old)) }
    {
        write_slot(self.words, self.upto, Slot::numbered(WORKER, number))?;
        self.upto += 1;
        Ok(())
    }

    /// The number in front, if there is one.
    pub fn front(&self) -> Option<u64>
        ensures is { result ≡ front (waiting self.now) }
        ensures more { IsSome result → (self.now.from < self.now.upto) × (self.now.upto < 2 ^ 64) }
    {
        if self.from == self.upto {
            return None;
        }
        Some(read_slot(self.words, self.from).number())
    }

    /// Takes the number in front, if there is one.
    pub fn pop(&mut self) -> Option<u64>
        ensures { MatchOption result
            ((waiting self.old ≡ []) × Becomes self.old self.new [])
            (λ n. (waiting self.old ≡ n ∷ waiting self.new) × (room self.new ≡ room self.old)) }
    {
        let number = self.front()?;
        self.from += 1;
        Some(number)
    }

    /// How many numbers there are.
    pub fn len(&self) -> usize
        ensures { result ≡ length (waiting self.now) }
    {
        self.upto - self.from
    }

    /// Lets all numbers go, so that the room is the whole line's again.
    pub fn clear(&mut self)
        ensures from { self.new.from ≡ 0 }
        ensures none { Becomes self.old self.new [] }
    {
        self.from = 0;
        self.upto = 0;
    }
}
