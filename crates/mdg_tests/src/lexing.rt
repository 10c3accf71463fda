//! Texts and their tokens, worked out by hand from section 7 of ECMA-262 5.1.

ghost use Rattle.std.specs.Prelude.{◌≤◌, length};

use mdg_text::{TextFault, TokenKind, line_of, tokens};
use std::alloc::Global;
use std::test::Fail;

/// A token as `FROM..TO LINE KIND TEXT`, with `+` before the line after a line end; or the fault.
fn shown(alloc: Global, source: &[u8]) -> Result<String, Fail> {
    let mut out = String::new(alloc);
    if 1_048_576 < source.len() {
        return Ok(out);
    }
    match tokens(alloc, source) {
        Ok(all) => {
            for token in all.as_slice() {
                let sign = if token.line_before { "+" } else { "" };
                let text = token.text.as_str();
                write!(
                    out,
                    "{}..{} {}{} {:?} {};",
                    token.from, token.to, sign, token.line, token.kind, text
                )?;
            }
        }
        Err(TextFault::BadToken(offset)) => write!(out, "bad {offset}")?,
        Err(TextFault::NotUtf8(offset)) => write!(out, "not UTF-8 {offset}")?,
        Err(TextFault::TooManyTokens(count)) => write!(out, "many {count}")?,
        Err(TextFault::NoMemory) => write!(out, "memory")?,
    }
    Ok(out)
}

#[test]
fn lists(rt: HostRuntime) -> Result<(), Fail> {
    let rows: [(&[u8], &str); 29] = [
        (b"", ""),
        (
            b"'use strict';\nvar a",
            "0..12 1 Text use strict;12..13 1 Mark ;;14..17 +2 Word var;18..19 2 Name a;",
        ),
        (b"a<<=b", "0..1 1 Name a;1..4 1 Mark <<=;4..5 1 Name b;"),
        (
            b"a+++b",
            "0..1 1 Name a;1..3 1 Mark ++;3..4 1 Mark +;4..5 1 Name b;",
        ),
        (b"a>>>=b", "0..1 1 Name a;1..5 1 Mark >>>=;5..6 1 Name b;"),
        (b"!===", "0..3 1 Mark !==;3..4 1 Mark =;"),
        (
            b"< !--b",
            "0..1 1 Mark <;2..3 1 Mark !;3..5 1 Mark --;5..6 1 Name b;",
        ),
        (
            b"<! --b",
            "0..1 1 Mark <;1..2 1 Mark !;3..5 1 Mark --;5..6 1 Name b;",
        ),
        (
            b"<<!--b",
            "0..2 1 Mark <<;2..3 1 Mark !;3..5 1 Mark --;5..6 1 Name b;",
        ),
        (b"<!-", "0..1 1 Mark <;1..2 1 Mark !;2..3 1 Mark -;"),
        (
            b"'<!--'/*<!--*/-->//<!--",
            "0..6 1 Text <!--;14..16 1 Mark --;16..17 1 Mark >;",
        ),
        (
            b"<!-\n-",
            "0..1 1 Mark <;1..2 1 Mark !;2..3 1 Mark -;4..5 +2 Mark -;",
        ),
        (b".5.", "0..2 1 Numeral .5;2..3 1 Mark .;"),
        (
            b"5..toString",
            "0..2 1 Numeral 5.;2..3 1 Mark .;3..11 1 Name toString;",
        ),
        (
            b"0 0.5 5. 10e3 1.5E-7 .5e+1 0xaF 0X0",
            "0..1 1 Numeral 0;2..5 1 Numeral 0.5;6..8 1 Numeral 5.;9..13 1 Numeral 10e3;14..20 1 Numeral 1.5E-7;21..26 1 Numeral .5e+1;27..31 1 Numeral 0xaF;32..35 1 Numeral 0X0;",
        ),
        (b"0xf.5", "0..3 1 Numeral 0xf;3..5 1 Numeral .5;"),
        (
            b"null nullx in instanceof",
            "0..4 1 Word null;5..10 1 Name nullx;11..13 1 Word in;14..24 1 Word instanceof;",
        ),
        (
            b"a/*\n*/b /**/c",
            "0..1 1 Name a;6..7 +2 Name b;12..13 2 Name c;",
        ),
        (b"a//b\nc//", "0..1 1 Name a;5..6 +2 Name c;"),
        (
            b"a /* b *",
            "0..1 1 Name a;2..3 1 Mark /;3..4 1 Mark *;5..6 1 Name b;7..8 1 Mark *;",
        ),
        (
            b"/*/ a",
            "0..1 1 Mark /;1..2 1 Mark *;2..3 1 Mark /;4..5 1 Name a;",
        ),
        (b"#!x y\na", "6..7 2 Name a;"),
        (b"#!x", ""),
        (
            b"a\nb\rc\r\nd\xe2\x80\xa8e\xe2\x80\xa9f",
            "0..1 1 Name a;2..3 +2 Name b;4..5 +3 Name c;7..8 +4 Name d;11..12 +5 Name e;15..16 +6 Name f;",
        ),
        (
            b"a\tb\x0bc\x0cd\xc2\xa0e\xef\xbb\xbff\xe1\x9a\x80g\xe2\x80\x80h\xe2\x80\x8ai",
            "0..1 1 Name a;2..3 1 Name b;4..5 1 Name c;6..7 1 Name d;9..10 1 Name e;13..14 1 Name f;17..18 1 Name g;21..22 1 Name h;25..26 1 Name i;",
        ),
        (
            b"\xce\xb1\xce\xb2 \xf0\x90\x90\x80x $_1",
            "0..4 1 Name \u{3b1}\u{3b2};5..10 1 Name \u{10400}x;11..14 1 Name $_1;",
        ),
        (b"a\xe2\x80\x8db", "0..5 1 Name a\u{200d}b;"),
        (
            b"'a\\\r\nb' \"c\\\nd\"e",
            "0..7 1 Text ab;8..14 2 Text cd;14..15 3 Name e;",
        ),
        (b"'\xc3\xa9'+", "0..4 1 Text \u{e9};4..5 1 Mark +;"),
    ];
    for (source, want) in rows {
        let got = shown(rt.alloc(), source)?;
        assert_eq!(rt; got.as_str(), want);
    }
    Ok(())
}

#[test]
fn faults(rt: HostRuntime) -> Result<(), Fail> {
    let rows: [(&[u8], &str); 39] = [
        (b"'use strict';\nvar a = 'x", "bad 22"),
        (b"'use strict';\n5.toString();", "bad 14"),
        (b"\x27\xff", "not UTF-8 1"),
        (b"a\xc0\x80", "not UTF-8 1"),
        (b"\xed\xa0\x80", "not UTF-8 0"),
        (b"\xc3\xa9\xe2\x80", "not UTF-8 2"),
        (b"\xc3\xa9 #", "bad 3"),
        (b"a @", "bad 2"),
        (b" #!x", "bad 1"),
        (b"<!--", "bad 0"),
        (b"'use strict'; a <!-- b", "bad 16"),
        (b"a\n<<<!--b", "bad 4"),
        (b"a \\u0061", "bad 2"),
        (b"a\\u0061", "bad 1"),
        (b"\xe2\x80\x8d", "bad 0"),
        (b"\xe1\xa0\x8ea", "bad 0"),
        (b"0x", "bad 0"),
        (b"0xg", "bad 0"),
        (b"0x1g", "bad 0"),
        (b"08", "bad 0"),
        (b"1e", "bad 0"),
        (b"1e+", "bad 0"),
        (b"3in", "bad 0"),
        (b"1.5x", "bad 0"),
        (b".5x", "bad 1"),
        (b"5.5\xce\xb1", "bad 0"),
        (b"'\\8'", "bad 0"),
        (b"'\\00'", "bad 0"),
        (b"'\\x4'", "bad 0"),
        (b"'\\xg0'", "bad 0"),
        (b"'\\u004'", "bad 0"),
        (b"'\\ud83d'", "bad 0"),
        (b"'\\ude00'", "bad 0"),
        (b"'\\ud83d\\u0041'", "bad 0"),
        (b"'\\ud83d\\ud83d'", "bad 0"),
        (b"'a\n'", "bad 0"),
        (b"'a\xe2\x80\xa8'", "bad 0"),
        (b"\"a'", "bad 0"),
        (b"'\\'", "bad 0"),
    ];
    for (source, want) in rows {
        let got = shown(rt.alloc(), source)?;
        assert_eq!(rt; got.as_str(), want);
    }
    Ok(())
}

#[test]
fn escapes(rt: HostRuntime) -> Result<(), Fail> {
    let rows: [(&[u8], &str); 14] = [
        (b"''", ""),
        (b"\"it's\"", "it's"),
        (b"'\\b\\t\\n\\v\\f\\r'", "\u{8}\t\n\u{b}\u{c}\r"),
        (b"'\\0'", "\0"),
        (b"'\\0a'", "\0a"),
        (b"'\\x41\\xe9'", "A\u{e9}"),
        (b"'\\u0041\\uFFFF'", "A\u{ffff}"),
        (b"'\\ud83d\\uDE00'", "\u{1f600}"),
        (b"'\\udbff\\udfff'", "\u{10ffff}"),
        (b"'\\'\\\"\\\\\\a\\$'", "'\"\\a$"),
        (b"'\\\xc3\xa9'", "\u{e9}"),
        (b"'a\\\nb\\\rc\\\r\nd'", "abcd"),
        (b"'a\\\xe2\x80\xa8b\\\xe2\x80\xa9'", "ab"),
        (b"'/*//#'", "/*//#"),
    ];
    for (source, want) in rows {
        let length = source.len();
        let mut wanted = String::new(rt.alloc());
        let mut got = String::new(rt.alloc());
        write!(wanted, "0 {length} {want}")?;
        if length < 100
            && let Ok(all) = tokens(rt.alloc(), source)
        {
            for token in all.as_slice() {
                write!(got, "{} {} {}", token.from, token.to, token.text.as_str())?;
            }
        }
        assert_eq!(rt; got.as_str(), wanted.as_str());
    }
    Ok(())
}

#[test]
fn tables(rt: HostRuntime) -> Result<(), Fail> {
    let rows: [(&[u8], &str, usize); 2] = [
        (
            b"break case catch class const continue debugger default delete do else enum export extends false finally for function if implements import in instanceof interface let new null package private protected public return static super switch this throw true try typeof var void while with yield",
            "Word",
            45,
        ),
        (
            b"{ } ( ) [ ] . ; , < > <= >= == != === !== + - * % / ++ -- << >> >>> & | ^ ! ~ && || ? : = += -= *= %= /= <<= >>= >>>= &= |= ^=",
            "Mark",
            48,
        ),
    ];
    for (source, want, count) in rows {
        let mut got = String::new(rt.alloc());
        let mut seen = 0usize;
        if source.len() < 1000
            && let Ok(all) = tokens(rt.alloc(), source)
        {
            seen = all.as_slice().len();
            for token in all.as_slice() {
                let kind = if token.kind == TokenKind::Word {
                    "Word"
                } else {
                    "Mark"
                };
                assert_eq!(rt; kind, want);
                write!(got, "{} ", token.text.as_str())?;
            }
        }
        assert_eq!(rt; seen, count);
        assert_eq!(rt; got.as_str().trim_end().as_bytes(), source);
    }
    Ok(())
}

#[test]
fn limit(rt: HostRuntime) -> Result<(), Fail> {
    let mut bytes = Vec::new(rt.alloc());
    bytes.extend_from_slice(b"'use strict'".as_slice())?;
    for _turn in 0..399_999 {
        bytes.push(b';')?;
    }
    if bytes.len() <= 1_048_576 {
        let count = tokens(rt.alloc(), bytes.as_slice()).map_or(0, |all| all.as_slice().len());
        assert_eq!(rt; count, 400_000);
    }
    bytes.push(b'#')?;
    assert_eq!(rt; shown(rt.alloc(), bytes.as_slice())?.as_str(), "bad 400011");
    bytes.pop();
    bytes.push(b';')?;
    bytes.push(b'#')?;
    assert_eq!(rt;
        shown(rt.alloc(), bytes.as_slice())?.as_str(),
        "many 400001"
    );
    Ok(())
}

#[test]
fn lines(rt: HostRuntime) -> Result<(), Fail> {
    let rows: [(&[u8], u32, u32); 10] = [
        (b"", 0, 1),
        (b"a\r\nb", 1, 1),
        (b"a\r\nb", 2, 2),
        (b"a\r\nb", 3, 2),
        (b"\n\r\r\n", 4, 4),
        (b"\xe2\x80\xa8", 2, 1),
        (b"\xe2\x80\xa8", 3, 2),
        (b"\xe2\x80\xa9x", 4, 2),
        (b"\xe2\x80\xaa\xa8\x80", 5, 1),
        (b"\xff\n\xe2\x80", 4, 2),
    ];
    for (bytes, offset, want) in rows {
        if bytes.len() < 100 && offset as usize <= bytes.len() {
            assert_eq!(rt; line_of(bytes, offset), want);
        }
    }
    Ok(())
}
