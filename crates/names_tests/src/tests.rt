//! The tests; the atoms of the language are the first sixteen names of every text.

use names::{NameTable, collect_names, is_atom, is_name};
use store::{Full, Heap};
use values::Atom;

/// What is asked of the names of the text, of their buckets and their chains; there is room for twenty names.
fn ask<T, F: FnOnce(NameTable<'_, '_>, &[u32], &Heap<'_>) -> T>(
    text: &[u8],
    question: F,
) -> Result<T, Full>
    requires { F.IsAlwaysCallable question }
{
    let mut spans = [0u32; 60];
    let mut buckets = [0u32; 3072];
    let mut words = [0u32; 120];
    let mut heap = Heap {
        words: &mut words,
        used: 0,
    };
    let count = collect_names(text, &mut spans, &mut buckets, &mut heap)?;
    let names = NameTable {
        text,
        spans: &spans,
        count,
    };
    Ok(question(names, &buckets, &heap))
}

/// How many names the text has.
fn names_in(text: &[u8]) -> Result<usize, Full> {
    ask(text, |names, _, _| names.count)
}

/// The number of the word among the names of the text, or 99 where it is none.
fn number_in(text: &[u8], word: &[u8]) -> Result<u32, Full> {
    ask(text, |names, buckets, heap| {
        match names.number_of(buckets, heap, word) {
            Some(Atom(number)) => number,
            None => 99,
        }
    })
}

/// Is the name of that number spelled so?
fn is_spelled(text: &[u8], number: u32, word: &[u8]) -> Result<bool, Full> {
    ask(text, |names, _, _| names.bytes(Atom(number)) == word)
}

#[test]
fn no_names(rt: HostRuntime) -> Result<(), Full> {
    assert!(rt; names_in(b"")? == 16);
    assert!(rt; names_in(b" 12 + (3) # a comment")? == 16);
    Ok(())
}

#[test]
fn each_once(rt: HostRuntime) -> Result<(), Full> {
    assert!(rt; names_in(b"one two one, two;one")? == 18);
    assert!(rt; number_in(b"one two one, two;one", b"one")? == 16);
    assert!(rt; number_in(b"one two one, two;one", b"two")? == 17);
    assert!(rt; number_in(b"one two one, two;one", b"three")? == 99);
    assert!(rt; is_spelled(b" one two one", 17, b"two")?);
    assert!(rt; is_spelled(b" one two one", 18, b"")?);
    Ok(())
}

#[test]
fn own_atoms(rt: HostRuntime) -> Result<(), Full> {
    assert!(rt; names_in(b"main() -> 'normal; x")? == 17);
    assert!(rt; number_in(b"main() -> 'normal; x", b"normal")? == 6);
    assert!(rt; number_in(b"main() -> 'normal; x", b"x")? == 16);
    assert!(rt; is_spelled(b"", 15, b"main")?);
    assert!(rt; is_spelled(b"", 0, b"type")?);
    Ok(())
}

#[test]
fn keywords_as_atoms(rt: HostRuntime) -> Result<(), Full> {
    assert!(rt; is_atom(b"receive") && !is_name(b"receive"));
    assert!(rt; is_atom(b"_") && !is_name(b"_"));
    assert!(rt; is_name(b"receiver") && is_name(b"_x"));
    assert!(rt; number_in(b"'receive", b"receive")? == 16);
    Ok(())
}

#[test]
fn lengths(rt: HostRuntime) -> Result<(), Full> {
    assert!(rt; is_name(b"abcdefghijklmnopqrstuvwxyz_01234"));
    assert!(rt; !is_atom(b"abcdefghijklmnopqrstuvwxyz_012345"));
    assert!(rt; !is_atom(b"") && !is_atom(b"1a") && !is_atom(b"a-b"));
    assert!(rt; names_in(b"abcdefghijklmnopqrstuvwxyz_01234")? == 17);
    assert!(rt; names_in(b"abcdefghijklmnopqrstuvwxyz_012345")? == 16);
    Ok(())
}

#[test]
fn no_room(rt: HostRuntime) -> Result<(), Full> {
    assert!(rt; names_in(b"a b c d")? == 20);
    assert!(rt; names_in(b"a b c d e").unwrap_or(0) == 0);
    Ok(())
}
