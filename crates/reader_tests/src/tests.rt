use code::{Builtin, Operator};
use reader::{Bracket, Class, Separator, Starter, binds, class_of, number};
use std::process::Abort;
use tokens::next_token;

// The text is one token of this class.
fn is_class(rt: &impl Abort, text: &[u8], class: Class) {
    let found = next_token(text).map(|lexeme| (class_of(lexeme.token), lexeme.rest.len()));
    assert_eq!(rt; found, Some((class, 0)));
}

#[test]
fn signs(rt: HostRuntime) {
    is_class(&rt, b"<=", Class::Operator(Operator::AtMost));
    is_class(&rt, b"<", Class::Operator(Operator::Less));
    is_class(&rt, b"::", Class::Cons);
    is_class(&rt, b"->", Class::Separate(Separator::Arrow));
    is_class(&rt, b"=", Class::Separate(Separator::Equals));
    is_class(&rt, b"{", Class::Open(Bracket::Brace));
    is_class(&rt, b")", Class::Close(Bracket::Paren));
    is_class(&rt, b"'", Class::Start(Starter::Quote));
    is_class(&rt, b"]", Class::Other);
    is_class(&rt, b">", Class::Other);
}

#[test]
fn keywords(rt: HostRuntime) {
    is_class(&rt, b"_", Class::Start(Starter::Underscore));
    is_class(&rt, b"fn", Class::Other);
    is_class(&rt, b"case", Class::Start(Starter::Case));
    is_class(&rt, b"self", Class::Builtin(Builtin::Itself));
    is_class(&rt, b"name", Class::Builtin(Builtin::Register));
    is_class(&rt, b"where", Class::Builtin(Builtin::Whereis));
    is_class(&rt, b"until", Class::Other);
    is_class(&rt, b"module", Class::Other);
    is_class(&rt, b"receive", Class::Start(Starter::Receive));
}

#[test]
fn names(rt: HostRuntime) {
    is_class(&rt, b"x", Class::Name);
    is_class(&rt, b"__", Class::Name);
    is_class(&rt, b"Case", Class::Name);
    is_class(&rt, b"selfs", Class::Name);
    is_class(&rt, b"abcdefghijklmnopqrstuvwxyz012345", Class::Name);
    is_class(&rt, b"abcdefghijklmnopqrstuvwxyz0123456", Class::Other);
}

#[test]
fn numbers(rt: HostRuntime) {
    is_class(&rt, b"0", Class::Number(0));
    is_class(&rt, b"007", Class::Number(7));
    is_class(
        &rt,
        b"999999999999999999",
        Class::Number(999999999999999999),
    );
    is_class(&rt, b"1000000000000000000", Class::Other);
    is_class(&rt, b"1a", Class::Other);
    assert_eq!(rt; number(b""), None);
    assert_eq!(rt; number(b"-1"), None);
}

#[test]
fn statements(rt: HostRuntime) {
    assert!(rt; binds(b"x = 1; x"));
    assert!(rt; binds(b"{a, b} = f(x);"));
    assert!(rt; !binds(b"f(x); y = 1;"));
    assert!(rt; !binds(b"case x { y -> { z = 1; z } }"));
    assert!(rt; !binds(b"x == 1; y = 2"));
    assert!(rt; !binds(b"x } y = 2"));
    assert!(rt; !binds(b"# x = 1"));
}
