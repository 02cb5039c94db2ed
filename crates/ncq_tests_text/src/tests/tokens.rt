//! The tokens of statements.

use ncq_base::Op;
use ncq_token::{Token, TokenError, TokenItems, tokens};
use std::alloc::{AllocError, Global};
use std::process::Abort;
use std::test::Fail;

/// A mark and the bytes that a token has.
fn parts_of(token: &Token) -> (&str, &[u8]) {
    match token {
        Token::TagStart => ("tag", b""),
        Token::TagEnd => ("end", b""),
        Token::TagClose => ("close", b""),
        Token::EmptyClose => ("empty", b""),
        Token::Name(name) => ("name:", name.as_slice()),
        Token::Variable(name) => ("$", name.as_slice()),
        Token::Quoted(text) => ("quoted:", text.as_slice()),
        Token::Word(word) => ("word:", word.as_slice()),
        Token::Cmp(op) => (mark_of(*op), b""),
        Token::Comma => ("comma", b""),
        Token::Dot => ("dot", b""),
        Token::Bar => ("bar", b""),
        Token::Star => ("star", b""),
        Token::Plus => ("plus", b""),
        Token::Open => ("open", b""),
        Token::Shut => ("shut", b""),
    }
}

fn mark_of(op: Op) -> &'static str {
    match op {
        Op::Eq => "eq",
        Op::Ne => "ne",
        Op::Lt => "lt",
        Op::Le => "le",
        Op::Gt => "gt",
        Op::Ge => "ge",
    }
}

fn show_token(out: &mut Vec<u8>, token: &Token) -> Result<(), AllocError> {
    let (mark, bytes) = parts_of(token);
    out.extend_from_slice(mark.as_bytes())?;
    out.extend_from_slice(bytes)?;
    out.push(b' ')?;
    Ok(())
}

/// The tokens, a space behind each.
fn show_tokens(alloc: Global, tokens: &TokenItems) -> Result<Vec<u8>, AllocError> {
    let mut out = Vec::new(alloc);
    for token in tokens.as_slice() {
        show_token(&mut out, token)?;
    }
    Ok(out)
}

/// `bad` and the offset.
fn show_bad(alloc: Global, at: u64) -> Result<Vec<u8>, AllocError> {
    let mut out = Vec::from_slice(alloc, b"bad ")?;
    ncq_base::write_decimal(at, &mut out)?;
    Ok(out)
}

/// The tokens of a text, a space behind each, or `bad` and the offset.
fn answer(alloc: Global, text: &[u8]) -> Result<Vec<u8>, AllocError> {
    match tokens(alloc, text) {
        Ok(tokens) => show_tokens(alloc, &tokens),
        Err(TokenError::BadByte { at }) => show_bad(alloc, at),
        Err(TokenError::OutOfMemory) => Err(AllocError),
    }
}

/// A text and its tokens.
type Case = (&'static [u8], &'static [u8]);

fn expect_case(rt: &impl Abort, alloc: Global, text: &[u8], want: &[u8]) -> Result<(), AllocError> {
    let got = answer(alloc, text)?;
    assert!(rt; got.as_slice() == want, "at {text:?}");
    Ok(())
}

fn expect_tokens(rt: &impl Abort, alloc: Global, cases: &[Case]) -> Result<(), AllocError> {
    for (text, want) in cases {
        expect_case(rt, alloc, text, want)?;
    }
    Ok(())
}

const TAGS: &[Case] = &[
    (b"", b""),
    (b" \t\r\n", b""),
    (b"<a>", b"tag name:a close "),
    (
        b"<a b=\"1\" c = $x/>",
        b"tag name:a name:b eq quoted:1 name:c eq $x empty ",
    ),
    (b"</>", b"end close "),
    (b"</ a >", b"end name:a close "),
    (b"<_:b-9>", b"tag name:_:b-9 close "),
    (b"<\x80\xff>", b"tag name:\x80\xff close "),
    (b"<a>=", b"tag name:a close eq "),
    (b"<a>>=", b"tag name:a close ge "),
    (b"<a/>/>", b"tag name:a empty word:/ gt "),
    (b"<a.b>", b"tag name:a dot name:b close "),
    (b"<a 1>", b"bad 3"),
    (b"<a,b>", b"bad 2"),
    (b"<a <", b"bad 3"),
    (b"<a / >", b"bad 3"),
    (b"<a b!=", b"bad 4"),
    (b"</9>", b"bad 2"),
];

const PATHS: &[Case] = &[
    (
        b"<(a|b)*.c+>",
        b"tag open name:a bar name:b shut star dot name:c plus close ",
    ),
    (b"<( a )>", b"tag open name:a shut close "),
    (b"</(a+)>", b"end open name:a plus shut close "),
    (b"<a-.b:|c>", b"tag name:a- dot name:b: bar name:c close "),
    (b"< (", b"lt word:( "),
    (b"<)", b"lt word:) "),
    (b"<.a", b"lt word:.a "),
    (b"<*", b"lt word:* "),
    (b"<(>", b"tag open close "),
    (b"<(<", b"bad 2"),
    (b"<a.1>", b"bad 3"),
    (b"<a>.|*+()", b"tag name:a close word:.|*+() "),
];

#[test]
fn paths(rt: HostRuntime) -> Result<(), Fail> {
    expect_tokens(&rt, rt.alloc(), PATHS)?;
    Ok(())
}

#[test]
fn tags(rt: HostRuntime) -> Result<(), Fail> {
    expect_tokens(&rt, rt.alloc(), TAGS)?;
    Ok(())
}

const COMPARISONS_AND_WORDS: &[Case] = &[
    (b"<9", b"lt word:9 "),
    (b"< a", b"lt word:a "),
    (b"<-", b"lt word:- "),
    (
        b"<= <== >= > >> != = ==",
        b"le le eq ge gt gt gt ne eq eq eq ",
    ),
    (b"a!=b", b"word:a ne word:b "),
    (b"a!b", b"word:a!b "),
    (b"a!!=b", b"word:a! ne word:b "),
    (b"! =", b"word:! eq "),
    (b"a,b", b"word:a comma word:b "),
    (b"a/b.c:d\x80'", b"word:a/b.c:d\x80' "),
    (b"a\"b\"c$d e", b"word:a quoted:b word:c $d word:e "),
    (b"a<b", b"word:a tag name:b "),
];

#[test]
fn comparisons_and_words(rt: HostRuntime) -> Result<(), Fail> {
    expect_tokens(&rt, rt.alloc(), COMPARISONS_AND_WORDS)?;
    Ok(())
}

const QUOTES_AND_VARIABLES: &[Case] = &[
    (b"\"\"", b"quoted: "),
    (b"\"a <b>$c\"", b"quoted:a <b>$c "),
    (b"\"a\\\"b\"", b"quoted:a\"b "),
    (b"\"a\\\\\"", b"quoted:a\\ "),
    (b"\"a\\nb\"", b"quoted:a\\nb "),
    (b"\"a", b"bad 0"),
    (b" \"a\\\"", b"bad 1"),
    (b"<a \"x>", b"bad 3"),
    (b"$x $_9y", b"$x $_9y "),
    (b"$x-y", b"$x word:-y "),
    (b"$", b"bad 0"),
    (b"a $1", b"bad 2"),
    (b"$\x80", b"bad 0"),
    (b"<a b=$>", b"bad 5"),
];

#[test]
fn quotes_and_variables(rt: HostRuntime) -> Result<(), Fail> {
    expect_tokens(&rt, rt.alloc(), QUOTES_AND_VARIABLES)?;
    Ok(())
}
