//! The scheduler's queue: this round's workers and the next round's, as two lines of numbers in lent words.

#![tactic(auto)]

mod line;

ghost use Rattle.std.specs.Prelude.{◌≡◌, ◌+◌, ◌-◌, ◌/◌, ◌^◌, ◌≤◌, ◌≢◌, min, true, [], length, MatchOption, MatchResult};
ghost use Rattle.queue.specs.Line.{front};
ghost use Rattle.queue.specs.Lines.{Empty, Ended, Popped, Pushed, Turned};

use line::Line;
use std::marker::Model;
use std::mem::swap;
use store::Full;

/// Two lines, each in words of its own: this round's numbers that are still to come, and the next round's.
#[derive(Drop)]
pub struct Queue<'a> {
    this: Line<'a>,
    next: Line<'a>,
}

impl<'a> Model for Queue<'a> {
    ghost use Rattle.std.specs.Prelude.{◌≡◌};
    ghost use Rattle.queue.specs.Line.{room, waiting};
    ghost use Rattle.queue.specs.Lines.{Lines};

    ghost Value = { Lines };

    ghost view = { λ q. record {
      before = waiting q.this;
      behind = waiting q.next;
      before_room = room q.this;
      behind_room = room q.next;
    } };

    ghost invariant = { λ q. q.next.from ≡ 0 };
}

impl<'a> Queue<'a> {
    /// A queue with no numbers; a line has room for one in every three words.
    pub fn new(this: &'a mut [u32], next: &'a mut [u32]) -> Queue<'a>
        ensures empty { Empty result }
        ensures rooms { (result.before_room ≡ length this.old / 3)
            × (result.behind_room ≡ length next.old / 3) }
    {
        Queue {
            this: Line::new(this),
            next: Line::new(next),
        }
    }

    /// Puts a number at the end of the next round; refuses where its line is full.
    pub fn push(&mut self, number: u64) -> Result<(), Full>
        ensures { MatchResult result
            (λ _. Pushed self.old self.new number)
            (λ _. (self.old.behind_room ≤ length self.old.behind) × (self.new ≡ self.old)) }
    {
        self.next.push(number)
    }

    /// The number in front of this round; none where the round has ended.
    pub fn first(&self) -> Option<u64>
        ensures { result ≡ front self.now.before }
    {
        self.this.front()
    }

    /// Takes the number in front of this round; none where the round has ended.
    pub fn pop(&mut self) -> Option<u64>
        ensures { MatchOption result
            (Ended self.old self.new)
            (λ n. Popped self.old self.new n) }
    {
        self.this.pop()
    }

    /// Begins the next round; does nothing while this one has numbers left.
    pub fn turn(&mut self)
        ensures ended { self.old.before ≡ [] → Turned self.old self.new }
        ensures going { (self.old.before ≢ []) → self.new ≡ self.old }
    {
        if self.this.len() > 0 {
            return;
        }
        swap(&mut self.this, &mut self.next);
        self.next.clear();
    }

    /// How many numbers both lines have, or the largest `usize` where they are more.
    pub fn len(&self) -> usize
        ensures { result ≡ min
            (length self.now.before + length self.now.behind) (2 ^ 64 - 1) }
    {
        self.this.len().saturating_add(self.next.len())
    }

    /// Whether neither line has a number.
    pub fn is_empty(&self) -> bool
        ensures empty { result ≡ true → Empty self.now }
        ensures filled { self.now.before ≡ [] → self.now.behind ≡ [] → result ≡ true }
    {
        self.len() == 0
    }
}
