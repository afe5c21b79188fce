//! Collects the names of a text: one pass over its tokens.

ghost use Rattle.std.specs.Prelude.{◌≡◌, ◌<◌, length, MatchResult};
ghost use Rattle.names.specs.Collect.{Cleared, Collected, Entered, NoRoom, OwnEntered, Stays};
ghost use Rattle.names.specs.Collect.{Uncollected, WordEntered, WordLacks, WordsEntered, WordsLack};
ghost use Rattle.names.specs.Table.{Finds};
ghost use Rattle.store.specs.Heap.{stored, Grows};
ghost use Rattle.store.specs.Slots.{slot_at};
ghost use Rattle.tokens.specs.Cutting.{Proper, spelling};

use crate::hash::{BUCKETS, hash};
use crate::own::ATOMS;
use crate::table::NameTable;
use crate::words::is_atom;
use store::{Full, Heap, Place, Slot, read_slot, write_slot};
use tokens::{Token, next_token};
use values::{ATOM, Atom, EMPTY_LIST, PAIR};

/// Makes the table of the names of the text, and gives how many there are; refuses only where there is no room for it.
pub fn collect_names(
    text: &[u8],
    spans: &mut [u32],
    buckets: &mut [u32],
    heap: &mut Heap<'_>,
) -> Result<usize, Full>
    ensures grows { Grows (stored heap.old) (stored heap.new) }
    ensures cases { MatchResult result
        (λ count. Collected text.now spans.new count buckets.new (stored heap.old) (stored heap.new))
        (λ _. Uncollected text.now spans.old buckets.old (stored heap.old)) }
{
    clear(buckets)?;
    let mut collector = Collector {
        text,
        spans,
        count: 0,
        buckets,
        heap,
    };
    collector.enter_own_atoms()?;
    collector.enter_words()?;
    Ok(collector.count)
}

/// Empties all buckets.
fn clear(buckets: &mut [u32]) -> Result<(), Full>
    ensures { MatchResult result (λ _. Cleared buckets.new) (λ _. length buckets.old < 3072) }
{
    for i in 0..BUCKETS {
        write_slot(buckets, i, EMPTY_LIST)?;
    }
    Ok(())
}

/// The table of the names so far: where each stands in the text, how many there are, and the buckets with their chains. No
/// map, since the words are lent and nothing may be allocated.
#[derive(Drop)]
struct Collector<'a, 'h> {
    text: &'a [u8],
    spans: &'a mut [u32],
    count: usize,
    buckets: &'a mut [u32],
    heap: &'a mut Heap<'h>,
}

impl Collector<'_, '_> {
    /// Enters the atoms of the language, under their fixed numbers.
    fn enter_own_atoms(&mut self) -> Result<(), Full>
        ensures stays { Stays self.old self.new }
        ensures cases { MatchResult result
            (λ _. OwnEntered self.old self.new)
            (λ _. NoRoom self.old 16) }
    {
        for atom in ATOMS {
            self.enter(Slot::ZERO, atom)?;
        }
        Ok(())
    }

    /// Enters each word of the text that can be a name, behind the atoms of the language.
    fn enter_words(&mut self) -> Result<(), Full>
        ensures stays { Stays self.old self.new }
        ensures cases { MatchResult result
            (λ _. WordsEntered self.old self.new)
            (λ _. WordsLack self.old) }
    {
        let text = self.text;
        let mut rest = text;
        // No `for` over `Lexemes`: where a token stands is counted from the text that was left.
        while let Some(lexeme) = next_token(rest) {
            let from = text.len() - rest.len() + lexeme.skipped;
            self.enter_token(from, lexeme.token)?;
            rest = lexeme.rest;
        }
        Ok(())
    }

    /// Enters the token at that place of the text, if it is a word that can be a name and is not there yet.
    fn enter_token(&mut self, from: usize, token: Token<'_>) -> Result<(), Full>
        ensures stays { Stays self.old self.new }
        ensures cases { Proper token.entry → MatchResult result
            (λ _. WordEntered self.old self.new from (spelling token.entry))
            (λ _. WordLacks self.old (spelling token.entry)) }
    {
        match token {
            Token::Word(word) => self.enter_word(from, word),
            Token::Sign(_) | Token::Byte(_) => Ok(()),
        }
    }

    /// Enters the word at that place of the text, if it can be a name and is not there yet.
    fn enter_word(&mut self, from: usize, word: &[u8]) -> Result<(), Full>
        ensures stays { Stays self.old self.new }
        ensures cases { MatchResult result
            (λ _. WordEntered self.old self.new from word.now)
            (λ _. WordLacks self.old word.now) }
    {
        if !is_atom(word) || self.number_of(word).is_some() {
            return Ok(());
        }
        self.enter(Place(from).slot(word.len() as u32), word)
    }

    /// The number of the word among the names so far.
    fn number_of(&self, word: &[u8]) -> Option<Atom>
        ensures { Finds self.now.text.now self.now.spans.now self.now.count
            self.now.buckets.now (stored self.now.heap.now) word.now result }
    {
        let table = NameTable {
            text: self.text,
            spans: self.spans,
            count: self.count,
        };
        table.number_of(self.buckets, self.heap, word)
    }

    /// The head of the chain of that bucket.
    fn head(&self, bucket: usize) -> Slot
        ensures { result ≡ slot_at self.now.buckets.now bucket }
    {
        read_slot(self.buckets, bucket)
    }

    /// Enters a word as the next name, with its span: a cell at the head of its bucket.
    fn enter(&mut self, span: Slot, word: &[u8]) -> Result<(), Full>
        ensures stays { Stays self.old self.new }
        ensures cases { MatchResult result
            (λ _. Entered self.old self.new span word.now)
            (λ _. NoRoom self.old 1) }
    {
        let count = self.count;
        let Ok(low) = u32::try_from(count) else {
            return Err(Full);
        };
        write_slot(self.spans, count, span)?;
        let bucket = hash(word);
        // No `Slot::from`: that promises what a slot holds, and a bucket's chain says which words it has.
        let number = Slot {
            kind: ATOM,
            low,
            high: 0,
        };
        let head = self.head(bucket);
        let node = self.heap.put(PAIR, number, head)?;
        write_slot(self.buckets, bucket, node)?;
        self.count = count + 1;
        Ok(())
    }
}
