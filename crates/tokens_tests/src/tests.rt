use std::alloc::{AllocError, Global};
use std::process::Abort;
use std::test::Fail;
use tokens::{Lexemes, Position, Token};

// The tokens of a text, each behind a blank, signs in round brackets.
fn written(heap: Global, text: &[u8]) -> Result<Vec<u8>, AllocError> {
    let mut all = Vec::new(heap);
    for lexeme in Lexemes::new(text) {
        all.push(b' ')?;
        add(&mut all, lexeme.token)?;
    }
    Ok(all)
}

fn add(all: &mut Vec<u8>, token: Token<'_>) -> Result<(), AllocError> {
    match token {
        Token::Word(word) => all.extend_from_slice(word)?,
        Token::Sign(sign) => {
            all.push(b'(')?;
            all.extend_from_slice(sign.bytes())?;
            all.push(b')')?;
        }
        Token::Byte(byte) => all.push(byte)?,
    }
    Ok(())
}

fn is_cut(rt: &impl Abort, heap: Global, text: &[u8], expected: &[u8]) -> Result<(), Fail> {
    assert_eq!(rt; written(heap, text)?.as_slice(), expected);
    Ok(())
}

#[test]
fn texts_without_tokens(rt: HostRuntime) -> Result<(), Fail> {
    is_cut(&rt, rt.alloc(), b"", b"")?;
    is_cut(&rt, rt.alloc(), b" \t\r\n", b"")?;
    is_cut(&rt, rt.alloc(), b"# a comment without an end", b"")?;
    is_cut(&rt, rt.alloc(), b"# one\r\n\t# two # more\n", b"")
}

#[test]
fn words(rt: HostRuntime) -> Result<(), Fail> {
    is_cut(&rt, rt.alloc(), b"a\r\nb", b" a b")?;
    is_cut(&rt, rt.alloc(), b"_x9Z 10 A#b\nc", b" _x9Z 10 A c")?;
    is_cut(
        &rt,
        rt.alloc(),
        b"abcdefghijklmnopqrstuvwxyzABCDEFGHIJKLMN;",
        b" abcdefghijklmnopqrstuvwxyzABCDEFGHIJKLMN ;",
    )
}

#[test]
fn signs(rt: HostRuntime) -> Result<(), Fail> {
    is_cut(
        &rt,
        rt.alloc(),
        b"a->b::c==d!=e<=f",
        b" a (->) b (::) c (==) d (!=) e (<=) f",
    )?;
    is_cut(&rt, rt.alloc(), b"- >", b" - >")?;
    is_cut(&rt, rt.alloc(), b":::", b" (::) :")?;
    is_cut(&rt, rt.alloc(), b"<==", b" (<=) =")?;
    is_cut(&rt, rt.alloc(), b"===>", b" (==) = >")?;
    is_cut(&rt, rt.alloc(), b"!#=\n=<", b" ! = <")
}

#[test]
fn other_bytes(rt: HostRuntime) -> Result<(), Fail> {
    is_cut(&rt, rt.alloc(), b"\0", b" \0")?;
    is_cut(&rt, rt.alloc(), b"a\xc3\xa9\xffb", b" a \xc3 \xa9 \xff b")?;
    is_cut(&rt, rt.alloc(), b"@[`{/:", b" @ [ ` { / :")
}

#[test]
fn positions(rt: HostRuntime) {
    let text = b"a\r\n\tb\n\nc";
    assert_eq!(rt; Position::in_text(text, 0), Position { line: 1, column: 1 });
    assert_eq!(rt; Position::in_text(text, 2), Position { line: 1, column: 3 });
    assert_eq!(rt; Position::in_text(text, 4), Position { line: 2, column: 2 });
    assert_eq!(rt; Position::in_text(text, 6), Position { line: 3, column: 1 });
    assert_eq!(rt; Position::in_text(text, 7), Position { line: 4, column: 1 });
    assert_eq!(rt;
        Position::in_text(text, 99),
        Position { line: 4, column: 2 }
    );
}
