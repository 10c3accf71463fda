//! Files and their trees, worked out by hand from sections 7.9 and 11 to 14 of ECMA-262 5.1.

ghost use Rattle.std.specs.Prelude.{◌≤◌, length};

use crate::tree_listing;
use mdg_read::{ReadRefusal, read_file};
use mdg_text::tokens;
use mdg_tree::{FileTree, copy, height};
use std::alloc::Global;
use std::test::Fail;

/// The tree of these bytes, where they have tokens.
fn read(alloc: Global, source: &[u8]) -> Result<Option<Result<FileTree, ReadRefusal>>, Fail> {
    if 1_048_576 < source.len() {
        return Ok(None);
    }
    match tokens(alloc, source) {
        Ok(all) => Ok(Some(read_file(alloc, all.as_slice()))),
        Err(_) => Ok(None),
    }
}

/// The tree of a file of these bytes, or its refusal.
fn shown(alloc: Global, source: &[u8]) -> Result<String, Fail> {
    let mut out = String::new(alloc);
    match read(alloc, source)? {
        None => write!(out, "no tokens")?,
        Some(Ok(tree)) => tree_listing::body(&mut out, tree.items.as_slice())?,
        Some(Err(ReadRefusal::NotStrict)) => write!(out, "not strict")?,
        Some(Err(ReadRefusal::NotCore(word, offset))) => {
            write!(out, "not core {} {offset}", word.as_str())?
        }
        Some(Err(ReadRefusal::NoTree(offset))) => write!(out, "no tree {offset}")?,
        Some(Err(ReadRefusal::NoMemory)) => write!(out, "no memory")?,
    }
    Ok(out)
}

/// The same of the directive, its semicolon, and these bytes.
fn strict(alloc: Global, source: &[u8]) -> Result<String, Fail> {
    let mut bytes = Vec::from_slice(alloc, b"'use strict';")?;
    bytes.extend_from_slice(source)?;
    shown(alloc, bytes.as_slice())
}

#[test]
fn statements(rt: HostRuntime) -> Result<(), Fail> {
    let rows: [(&[u8], &str); 36] = [
        (b"", ""),
        (b";", " ;"),
        (b"{}", " (block)"),
        (b"{ a; { b } }", " (block a (block b))"),
        (
            b"var a, b = c, d = e = f;",
            " (var a b= c d= (assign Plain e f))",
        ),
        (b"if (a) b;", " (if a b)"),
        (b"if (a, b) {} else ;", " (if (, a b) (block) else ;)"),
        (b"if (a) if (b) c; else d;", " (if a (if b c else d))"),
        (
            b"if (a) { if (b) c; } else d;",
            " (if a (block (if b c)) else d)",
        ),
        (
            b"if (a) while (b) if (c) d; else e; else f;",
            " (if a (while b (if c d else e)) else f)",
        ),
        (
            b"if (a) b; else if (c) d; else e;",
            " (if a b else (if c d else e))",
        ),
        (b"do a; while (b);", " (do a b)"),
        (b"do {} while (a) b;", " (do (block) a) b"),
        (b"while (a) b;", " (while a b)"),
        (b"for (;;) ;", " (for - - - ;)"),
        (b"for (a; b; c) d;", " (for a b c d)"),
        (
            b"for (a, b; c, d; e, f) ;",
            " (for (, a b) (, c d) (, e f) ;)",
        ),
        (b"for (var a; b;) ;", " (for (var a) b - ;)"),
        (b"for (var a = b, c; ; d) ;", " (for (var a= b c) - d ;)"),
        (
            b"for (var i = (a in b); ;) ;",
            " (for (var i= (paren (In a b))) - - ;)",
        ),
        (
            b"for (a ? b in c : d; ;) ;",
            " (for (? a (In b c) d) - - ;)",
        ),
        (
            b"for (a[b in c]; d in e; f in g) ;",
            " (for ([] a (In b c)) (In d e) (In f g) ;)",
        ),
        (
            b"for (a = function () { b in c }; ;) ;",
            " (for (assign Plain a (function:1@22 @22: (In b c))) - - ;)",
        ),
        (b"for (a in b, c) ;", " (for-in a (, b c) ;)"),
        (b"for (a.b in c) d;", " (for-in (.b a) c d)"),
        (b"for (a()[b] in c) ;", " (for-in ([] (call a) b) c ;)"),
        (b"for (var a in b) {}", " (for-in (var a) b (block))"),
        (
            b"while (a) { continue; break; }",
            " (while a (block continue break))",
        ),
        (b"function f() {}", " (declared:1@13 f@22:)"),
        (
            b"function f(a, b) { return; }",
            " (declared:1@13 f@22 a b @24 @27: return)",
        ),
        (
            b"function f() { function g() {} return g; }",
            " (declared:1@13 f@22: (declared:1@28 g@37:) (return g))",
        ),
        (b"throw a, b;", " (throw (, a b))"),
        (b"return a;", " (return a)"),
        (b"return function () {};", " (return (function:1@20 @20:))"),
        (b"a; b; c;", " a b c"),
        (b"\n\nfunction f(a) {}", " (declared:3@15 f@24 a @26:)"),
    ];
    for (source, want) in rows {
        assert_eq!(rt; strict(rt.alloc(), source)?.as_str(), want);
    }
    Ok(())
}

/// Each case of an inserted semicolon (7.9.1).
#[test]
fn inserted_semicolons(rt: HostRuntime) -> Result<(), Fail> {
    let rows: [(&[u8], &str); 33] = [
        (b"a", " a"),
        (b"{ a }", " (block a)"),
        (b"a\nb", " a b"),
        (b"a /*\n*/ b", " a b"),
        (b"a\n{}", " a (block)"),
        (b"a\n!b", " a (Not b)"),
        (b"a\n(b)", " (call a b)"),
        (b"a\n[b]", " ([] a b)"),
        (b"a\n+ b", " (Add a b)"),
        (b"a\nin b", " (In a b)"),
        (b"a\n= b", " (assign Plain a b)"),
        (b"a\n? b : c", " (? a b c)"),
        (b"a++\n(b)", " (postfix Increment a) (paren b)"),
        (b"a--\n[b]", " (postfix Decrement a) (array b)"),
        (b"a++\n+ b", " (Add (postfix Increment a) b)"),
        (b"var a\n(b)", " (var a) (paren b)"),
        (b"var a\n[b]", " (var a) (array b)"),
        (b"var a\n+ b", " (var a) (Plus b)"),
        (b"var a\n- b", " (var a) (Minus b)"),
        (b"var a = b, c\n(d)", " (var a= b c) (paren d)"),
        (b"var a = b\n(c)", " (var a= (call b c))"),
        (b"return\n(a)", " return (paren a)"),
        (b"return\n+ a", " return (Plus a)"),
        (b"return\na", " return a"),
        (b"{ return }", " (block return)"),
        (
            b"while (a) { break\n(b)\ncontinue\n[c] }",
            " (while a (block break (paren b) continue (array c)))",
        ),
        (b"do ; while (a) (b)", " (do ; a) (paren b)"),
        (b"do a\nwhile (b)\nc", " (do a b) c"),
        (b"if (a) b\nelse c", " (if a b else c)"),
        (
            b"if (a) { b } else { c }",
            " (if a (block b) else (block c))",
        ),
        (b"throw a\nb", " (throw a) b"),
        (b"\n'b'\n(c)", " (call 'b' c)"),
        (b"for (;;) a\nb", " (for - - - a) b"),
    ];
    for (source, want) in rows {
        assert_eq!(rt; strict(rt.alloc(), source)?.as_str(), want);
    }
    Ok(())
}

#[test]
fn refusals(rt: HostRuntime) -> Result<(), Fail> {
    let rows: [(&[u8], &str); 59] = [
        (b"", "not strict"),
        (b"var a;", "not strict"),
        (b"a; 'use strict';", "not strict"),
        (b"('use strict');", "not strict"),
        (b"'use\\x20strict';", "not strict"),
        (b"'Use strict';", "not strict"),
        (b"'use strict' + a;", "not strict"),
        (b"'use strict'\n+ a;", "not strict"),
        (b"'use strict' a;", "not strict"),
        (b"class A {}", "not strict"),
        (b"'use strict'", ""),
        (b"\"use strict\"\na", " a"),
        (
            b"'use strict';\nvar x = {};\nx.new = 1;\nclass A {}",
            "not core class 37",
        ),
        (
            b"'use strict';\nvar x = {};\nx.new = 1;\n",
            " (var x= (object)) (assign Plain (.new x) 1)",
        ),
        (b"'use strict'; ) arguments;", "not core arguments 16"),
        (b"'use strict'; a.arguments; this;", "not core this 27"),
        (b"'use strict'; ({ try: a, b: this });", "not core this 28"),
        (b"'use strict'; a ? b : switch;", "not core switch 22"),
        (b"'use strict'; a\nlet b;", "not core let 16"),
        (b"'use strict'; a b;", "no tree 14"),
        (b"'use strict'; a; b c; d", "no tree 17"),
        (b"'use strict'; a; { b; c d }", "no tree 17"),
        (b"'use strict'; }", "no tree 14"),
        (b"'use strict'; { a", "no tree 14"),
        (b"'use strict'; (a", "no tree 14"),
        (b"'use strict'; a = ;", "no tree 14"),
        (b"'use strict'; a = b = 1 = c;", "no tree 14"),
        (b"'use strict'; (a) = b;", "no tree 14"),
        (b"'use strict'; a + b = c;", "no tree 14"),
        (b"'use strict'; a() = b;", "no tree 14"),
        (b"'use strict'; ++(a);", "no tree 14"),
        (b"'use strict'; a()++;", "no tree 14"),
        (b"'use strict'; a++ ++;", "no tree 14"),
        (b"'use strict'; [, a];", "no tree 14"),
        (b"'use strict'; [a,, b];", "no tree 14"),
        (b"'use strict'; a(b,);", "no tree 14"),
        (b"'use strict'; ({ a: b,, c: d });", "no tree 14"),
        (b"'use strict'; ({ 1.5: a });", "no tree 14"),
        (b"'use strict'; ({ 0x1: a });", "no tree 14"),
        (b"'use strict'; ({ get a() {} });", "no tree 14"),
        (b"'use strict'; a: b;", "no tree 14"),
        (b"'use strict'; a.1;", "no tree 14"),
        (b"'use strict'; else a;", "no tree 14"),
        (b"'use strict'; if (a) b; else c; else d;", "no tree 32"),
        (b"'use strict'; if (a) b else c;", "no tree 14"),
        (b"'use strict'; if (a) function f() {}", "no tree 14"),
        (b"'use strict'; { function f() {} }", "no tree 14"),
        (b"'use strict'; function () {}", "no tree 14"),
        (b"'use strict'; function f(a,) {}", "no tree 14"),
        (b"'use strict'; function f(a b) {}", "no tree 14"),
        (b"'use strict'; a;\nthrow\nb;", "no tree 17"),
        (b"'use strict'; break a;", "no tree 14"),
        (b"'use strict'; for (var a = b in c) ;", "no tree 14"),
        (b"'use strict'; for (var a, b in c) ;", "no tree 14"),
        (b"'use strict'; for (a() in b) ;", "no tree 14"),
        (b"'use strict'; for (a in b; ;) ;", "no tree 14"),
        (b"'use strict'; for (a; b) ;", "no tree 14"),
        (b"'use strict'; do a while (b)", "no tree 14"),
        (b"'use strict'; var a\n.b", "no tree 14"),
    ];
    for (source, want) in rows {
        assert_eq!(rt; shown(rt.alloc(), source)?.as_str(), want);
    }
    Ok(())
}

/// Both readings of a line that begins with `(`, within a function.
#[test]
fn parentheses_after_a_line_end(rt: HostRuntime) -> Result<(), Fail> {
    let call = b"'use strict'\nexports.h = function (a) {\n  var f = eval\n  (a)\n}\n";
    assert_eq!(rt;
        shown(rt.alloc(), call)?.as_str(),
        " (assign Plain (.h exports) (function:2@25 @25 a @35: (var f= (call eval a))))"
    );
    let two = b"'use strict'\nexports.h = function (a) {\n  var f\n  (a)\n}\n";
    assert_eq!(rt;
        shown(rt.alloc(), two)?.as_str(),
        " (assign Plain (.h exports) (function:2@25 @25 a @35: (var f) (paren a)))"
    );
    Ok(())
}

/// The height of the tree of a file of these bytes.
fn height_of(alloc: Global, source: &[u8]) -> Result<Option<u32>, Fail> {
    if 1_048_576 < source.len() {
        return Ok(None);
    }
    let Ok(all) = tokens(alloc, source) else {
        return Ok(None);
    };
    match read_file(alloc, all.as_slice()) {
        Ok(tree) => Ok(Some(height(&tree))),
        Err(_) => Ok(None),
    }
}

/// The directive, a line end, and the middle with these around it.
fn nested(
    alloc: Global,
    depth: usize,
    open: &[u8],
    middle: &[u8],
    close: &[u8],
) -> Result<Vec<u8>, Fail> {
    let mut bytes = Vec::from_slice(alloc, b"'use strict';\n")?;
    for _iteration in 0..depth {
        bytes.extend_from_slice(open)?;
    }
    bytes.extend_from_slice(middle)?;
    for _iteration in 0..depth {
        bytes.extend_from_slice(close)?;
    }
    Ok(bytes)
}

#[test]
fn heights(rt: HostRuntime) -> Result<(), Fail> {
    let alloc = rt.alloc();
    let most = nested(alloc, 253, b"(", b"1", b")")?;
    assert_eq!(rt; height_of(alloc, most.as_slice())?, Some(256));
    let rows: [(usize, &[u8], &[u8], &[u8], bool); 15] = [
        (253, b"(", b"1", b")", true),
        (254, b"(", b"1", b")", false),
        (190_000, b"(", b"1", b")", false),
        (300_000, b"(", b"", b"", false),
        (300_000, b"[", b"", b"", false),
        (100_000, b"{", b"", b"}", false),
        (100_000, b"a=", b"1", b"", false),
        (100_000, b"- ", b"1", b"", false),
        (253, b"a+", b"1", b"", true),
        (254, b"a+", b"1", b"", false),
        (100_000, b"a+", b"1", b"", false),
        (100_000, b"a,", b"1", b"", true),
        (100_000, b"", b"a", b".b", false),
        (100_000, b"", b"a", b"()", false),
        (399_998, b";", b"", b"", true),
    ];
    for (depth, open, middle, close, has_tree) in rows {
        let bytes = nested(alloc, depth, open, middle, close)?;
        let got = shown(alloc, bytes.as_slice())?;
        assert_eq!(rt; got.as_str() == "no tree 14", !has_tree, "at {depth}");
    }
    Ok(())
}

/// A realistic file, and a copy of its tree.
#[test]
fn copies(rt: HostRuntime) -> Result<(), Fail> {
    let alloc = rt.alloc();
    let source = b"'use strict';
var cp = require('child_process');
function quote(s) {
  return \"'\" + s + \"'\";
}
function run(dir, cb) {
  cp.exec('ls ' + quote(dir), function (err, out) {
    cb(err, out);
  });
}
module.exports = { run: run };
";
    let want = " (var cp= (call require 'child_process')) \
        (declared:3@49 quote@58 s @64: (return (Add (Add ''' s) '''))) \
        (declared:6@95 run@104 dir cb @108 @113: \
        (call (.exec cp) (Add 'ls ' (call quote dir)) (function:7@149 @149 err out @159 @164: \
        (call cb err out)))) \
        (assign Plain (.exports module) (object run: run))";
    let Some(Ok(tree)) = read(alloc, source)? else {
        return Ok(assert!(rt; false));
    };
    let again = copy(alloc, &tree)?;
    for one in [&tree, &again] {
        let mut out = String::new(alloc);
        tree_listing::body(&mut out, one.items.as_slice())?;
        assert_eq!(rt; out.as_str(), want);
    }
    Ok(())
}

/// The same of an expression in parentheses as a statement.
fn expression(alloc: Global, source: &[u8]) -> Result<String, Fail> {
    let mut bytes = Vec::from_slice(alloc, b"(")?;
    bytes.extend_from_slice(source)?;
    bytes.extend_from_slice(b");")?;
    strict(alloc, bytes.as_slice())
}

#[test]
fn expressions(rt: HostRuntime) -> Result<(), Fail> {
    let rows: [(&[u8], &str); 58] = [
        (b"a", " (paren a)"),
        (b"null", " (paren null)"),
        (b"true", " (paren true)"),
        (b"false", " (paren false)"),
        (b"1.5e3", " (paren 1.5e3)"),
        (b"'x'", " (paren 'x')"),
        (b"(a)", " (paren (paren a))"),
        (b"[]", " (paren (array))"),
        (b"[a, b]", " (paren (array a b))"),
        (b"[a, ]", " (paren (array a))"),
        (b"[, ]", "no tree 13"),
        (b"[a, , b]", "no tree 13"),
        (b"{}", " (paren (object))"),
        (
            b"{ a: 1, 'b': c, 7: d, if: e, }",
            " (paren (object a: 1 'b': c 7: d if: e))",
        ),
        (b"{ 1.5: a }", "no tree 13"),
        (b"{ a }", "no tree 13"),
        (b"{ , }", "no tree 13"),
        (b"a.b.if", " (paren (.if (.b a)))"),
        (b"a[b, c]", " (paren ([] a (, b c)))"),
        (b"f(a)(b, c).d", " (paren (.d (call (call f a) b c)))"),
        (b"f(a, )", "no tree 13"),
        (b"new a", " (paren (new a))"),
        (b"new a()", " (paren (new() a))"),
        (
            b"new a.b[c](d).e(f)",
            " (paren (call (.e (new() ([] (.b a) c) d)) f))",
        ),
        (b"new new a()()", " (paren (new() (new() a)))"),
        (b"new new a()", " (paren (new (new() a)))"),
        (b"new (f())()", " (paren (new() (paren (call f))))"),
        (b"a++", " (paren (postfix Increment a))"),
        (b"a\n++", "no tree 13"),
        (b"++a.b", " (paren (prefix Increment (.b a)))"),
        (b"--f()", "no tree 13"),
        (b"f()--", "no tree 13"),
        (b"(a)++", "no tree 13"),
        (b"- -a", " (paren (Minus (Minus a)))"),
        (
            b"typeof a.b + !void 0",
            " (paren (Add (TypeOf (.b a)) (Not (Void 0))))",
        ),
        (b"delete a[b]", " (paren (Delete ([] a b)))"),
        (b"~a++", " (paren (BitNot (postfix Increment a)))"),
        (b"a - b - c", " (paren (Subtract (Subtract a b) c))"),
        (
            b"a * b / c % d",
            " (paren (Remainder (Divide (Multiply a b) c) d))",
        ),
        (
            b"a + b * c - d",
            " (paren (Subtract (Add a (Multiply b c)) d))",
        ),
        (
            b"a || b && c | d ^ e & f == g < h << i + j * k",
            " (paren (Or a (And b (BitOr c (BitXor d (BitAnd e (Equal f (Less g (ShiftLeft h (Add i (Multiply j k)))))))))))",
        ),
        (
            b"a * b + c << d < e == f & g ^ h | i && j || k",
            " (paren (Or (And (BitOr (BitXor (BitAnd (Equal (Less (ShiftLeft (Add (Multiply a b) c) d) e) f) g) h) i) j) k))",
        ),
        (
            b"a >>> b >> c <= d >= e > f",
            " (paren (Greater (GreaterEqual (LessEqual (ShiftRight (ShiftRightUnsigned a b) c) d) e) f))",
        ),
        (
            b"a === b !== c != d",
            " (paren (NotEqual (StrictNotEqual (StrictEqual a b) c) d))",
        ),
        (b"a in b instanceof c", " (paren (InstanceOf (In a b) c))"),
        (b"a ? b : c ? d : e", " (paren (? a b (? c d e)))"),
        (
            b"a ? b = c : d = e",
            " (paren (? a (assign Plain b c) (assign Plain d e)))",
        ),
        (b"a ? b, c : d", "no tree 13"),
        (b"a = b += c", " (paren (assign Plain a (assign Add b c)))"),
        (
            b"a.b >>>= c || d",
            " (paren (assign ShiftRightUnsigned (.b a) (Or c d)))",
        ),
        (
            b"a[b] = c ? d : e",
            " (paren (assign Plain ([] a b) (? c d e)))",
        ),
        (b"(a) = b", "no tree 13"),
        (b"a + b = c", "no tree 13"),
        (b"f() = a", "no tree 13"),
        (b"a, b = c, d", " (paren (, a (assign Plain b c) d))"),
        (
            b"function (a, b) { }.call",
            " (paren (.call (function:1@14 @14 a b @24 @27:)))",
        ),
        (b"", "no tree 13"),
        (b"+", "no tree 13"),
    ];
    for (source, want) in rows {
        let got = expression(rt.alloc(), source)?;
        assert_eq!(rt; got.as_str(), want);
    }
    Ok(())
}

/// The same of the first part of a `for`.
fn for_start(alloc: Global, source: &[u8]) -> Result<String, Fail> {
    let mut bytes = Vec::from_slice(alloc, b"for (")?;
    bytes.extend_from_slice(source)?;
    bytes.extend_from_slice(b"; ; ) ;")?;
    strict(alloc, bytes.as_slice())
}

#[test]
fn in_is_left_out(rt: HostRuntime) -> Result<(), Fail> {
    let rows: [(&[u8], &str); 8] = [
        (b"a in b", "no tree 13"),
        (b"(a in b) < c", " (for (Less (paren (In a b)) c) - - ;)"),
        (
            b"f(a in b)[c in d]",
            " (for ([] (call f (In a b)) (In c d)) - - ;)",
        ),
        (b"a ? b in c : d in e", "no tree 13"),
        (b"a = b in c", "no tree 13"),
        (b"a, b in c", "no tree 13"),
        (b"a + b in c", "no tree 13"),
        (b"[a in b]", " (for (array (In a b)) - - ;)"),
    ];
    for (source, want) in rows {
        let got = for_start(rt.alloc(), source)?;
        assert_eq!(rt; got.as_str(), want);
    }
    Ok(())
}
