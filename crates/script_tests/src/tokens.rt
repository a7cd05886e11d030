//! Texts and their tokens, worked out by hand from the grammar.

use scope_lexer::lexing::MAX_SCRIPT;
use scope_lexer::{Token, TokenKind, is_word, lex, number_value, string_value, token_text};
use std::alloc::{AllocError, Global};
use std::test::Fail;

fn letter(kind: TokenKind) -> char {
    match kind {
        TokenKind::Name => 'n',
        TokenKind::Keyword => 'k',
        TokenKind::Number => 'd',
        TokenKind::Text => 't',
        TokenKind::Symbol => 's',
    }
}

/// Each token's kind and places, as `n0-3 `, or the place at fault.
fn outline(alloc: Global, text: &str) -> Result<String, AllocError> {
    match lex(alloc, text)? {
        Err(fault) => format!(in alloc; "fault {}", fault.at),
        Ok(tokens) => {
            let mut out = String::new(alloc);
            for token in &tokens {
                let one = format!(in alloc; "{}{}-{} ", letter(token.kind), token.from, token.to)?;
                out.push_str(one.as_str())?;
            }
            Ok(out)
        }
    }
}

fn is_cut(alloc: Global, text: &str, want: &str) -> Result<bool, AllocError> {
    let is = outline(alloc, text)?;
    Ok(is.as_str() == want)
}

// The first text whose tokens aren't these.
fn wrong_tokens(alloc: Global) -> Result<Option<usize>, AllocError> {
    let rows = [
        ("", ""),
        (" \t\r\n", ""),
        (
            "= == != < <= > >= + - * / %",
            "s0-1 s2-4 s5-7 s8-9 s10-12 s13-14 s15-17 s18-19 s20-21 s22-23 s24-25 s26-27 ",
        ),
        (
            "&& || ! ( ) , ; : .",
            "s0-2 s3-5 s6-7 s8-9 s10-11 s12-13 s14-15 s16-17 s18-19 ",
        ),
        ("<= < =", "s0-2 s3-4 s5-6 "),
        ("===!==", "s0-2 s2-3 s3-5 s5-6 "),
        ("/* /* */ a", "n9-10 "),
        ("/* /* */ */", "s9-10 s10-11 "),
        ("/**/a/***/b", "n4-5 n10-11 "),
        ("a//b\rc", "n0-1 "),
        ("a//b\r\nc//", "n0-1 n6-7 "),
        ("a / b", "n0-1 s2-3 n4-5 "),
        ("9223372036854775807", "d0-19 "),
        ("00000000000000000000009223372036854775807", "d0-41 "),
        ("1.5-2", "d0-1 s1-2 d2-3 s3-4 d4-5 "),
        ("SELECT Select nulL sELECTx", "k0-6 k7-13 k14-18 n19-26 "),
        (
            "count COUNT int _a a1_ A",
            "n0-5 n6-11 n12-15 n16-18 n19-22 n23-24 ",
        ),
        ("\u{feff}a", "n3-4 "),
        ("\"é//\u{1}\" \"\"", "t0-7 t8-10 "),
        (r#""a\\\"\n\t""#, "t0-11 "),
        (r#""\\""a""#, "t0-4 t4-7 "),
    ];
    for (at, (text, want)) in rows.iter().enumerate() {
        if !is_cut(alloc, text, want)? {
            return Ok(Some(at));
        }
    }
    Ok(None)
}

// The first text whose fault isn't this.
fn wrong_fault(alloc: Global) -> Result<Option<usize>, AllocError> {
    let rows = [
        ("12ab", "fault 0"),
        ("12_", "fault 0"),
        ("5é", "fault 1"),
        ("9223372036854775808", "fault 0"),
        ("-9223372036854775808", "fault 1"),
        ("a 00099999999999999999999", "fault 2"),
        ("a /* b", "fault 2"),
        ("/*/", "fault 0"),
        ("/* a *", "fault 0"),
        ("a \"b", "fault 2"),
        ("\"", "fault 0"),
        (r#" "a\q""#, "fault 1"),
        (r#""a\""#, "fault 0"),
        (r#""a\"#, "fault 0"),
        ("\"a\nb\"", "fault 0"),
        ("\"a\rb\"", "fault 0"),
        ("a & b", "fault 2"),
        ("a |", "fault 2"),
        ("a # b", "fault 2"),
        ("'a'", "fault 0"),
        ("\u{b}", "fault 0"),
        ("é", "fault 0"),
        ("a\u{feff}", "fault 1"),
        ("\u{feff}\u{feff}", "fault 3"),
        ("\u{feff}a ?", "fault 5"),
    ];
    for (at, (text, want)) in rows.iter().enumerate() {
        if !is_cut(alloc, text, want)? {
            return Ok(Some(at));
        }
    }
    Ok(None)
}

#[test]
fn texts_are_cut_or_have_a_fault(rt: HostRuntime) -> Result<(), Fail> {
    assert_eq!(rt; wrong_tokens(rt.alloc())?, None);
    assert_eq!(rt; wrong_fault(rt.alloc())?, None);
    Ok(())
}

#[test]
fn the_limit_comes_first(rt: HostRuntime) -> Result<(), Fail> {
    let longest = " ".repeat(rt.alloc(), MAX_SCRIPT)?;
    assert!(rt; is_cut(rt.alloc(), longest.as_str(), "")?);
    let too_long = "#".repeat(rt.alloc(), MAX_SCRIPT + 1)?;
    assert!(rt; is_cut(rt.alloc(), too_long.as_str(), "fault 1048576")?);
    Ok(())
}

#[test]
fn tokens_have_values(rt: HostRuntime) -> Result<(), Fail> {
    let token = Token {
        kind: TokenKind::Number,
        from: 3,
        to: 6,
    };
    assert_eq!(rt; token_text("ab 007", token), b"007".as_slice());
    assert!(rt; is_word(b"From".as_slice(), b"FROM".as_slice()));
    let digits = b"007".as_slice();
    assert_eq!(rt; number_value(digits), 7);
    let quoted = br#""a\\\"\n\tb""#.as_slice();
    let value = string_value(rt.alloc(), quoted)?;
    assert_eq!(rt; value.as_slice(), b"a\\\"\n\tb".as_slice());
    Ok(())
}
