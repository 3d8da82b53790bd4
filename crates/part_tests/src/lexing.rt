//! What no clause says: that calls succeed where there is memory, and worked values.

use c_lexer::{LexFault, Tokens, lex};
use c_words::TokenKind;
use qual_base::{Elem, LatticeNo, Numbered, QualWords, Spot, TokenId, UnitNo};
use std::alloc::{AllocError, Global};
use std::process::Abort;
use std::test::Fail;

fn words(rt: &impl Abort, alloc: Global) -> QualWords {
    let mut words = QualWords::new(alloc);
    words
        .push(b"$tainted", LatticeNo::new(0), Elem::new(1))
        .expect(rt, "memory");
    words
        .push(b"$_1", LatticeNo::new(1), Elem::new(0))
        .expect(rt, "memory");
    words
        .push(b"const", LatticeNo::new(2), Elem::new(3))
        .expect(rt, "memory");
    words
}

fn kind_text(alloc: Global, kind: TokenKind) -> Result<String, AllocError> {
    match kind {
        TokenKind::Name(id) => format!(in alloc; "n{}", id.number()),
        TokenKind::Keyword(keyword) => format!(in alloc; "{keyword:?}"),
        TokenKind::Number => format!(in alloc; "number"),
        TokenKind::Char => format!(in alloc; "char"),
        TokenKind::Text => format!(in alloc; "text"),
        TokenKind::Punct(sign) => format!(in alloc; "{sign:?}"),
        TokenKind::Qual(lattice, elem) => format!(in alloc;
            "q{}.{}",
            lattice.number(),
            elem.number()
        ),
        TokenKind::Index => format!(in alloc; "index"),
        TokenKind::End => format!(in alloc; "end"),
    }
}

fn tokens_text(alloc: Global, tokens: &Tokens) -> Result<String, AllocError> {
    let mut text = String::new(alloc);
    for at in 0..tokens.len() {
        let kind = kind_text(alloc, tokens.kind(TokenId::new(at)))?;
        text.push_str(&kind)?;
        text.push_str(" ")?;
    }
    Ok(text)
}

fn spot_text(alloc: Global, spot: Spot) -> Result<String, AllocError> {
    format!(in alloc;
        "{}-{} {}:{}",
        spot.name_from, spot.name_to, spot.line, spot.column
    )
}

fn shown(rt: &impl Abort, alloc: Global, unit: u32, source: &[u8]) -> Result<String, AllocError> {
    assert!(rt; source.len() < 1000);
    match lex(alloc, UnitNo::new(unit), false, source, &words(rt, alloc)) {
        Ok(tokens) => tokens_text(alloc, &tokens),
        Err(LexFault::BadByte(spot)) => format!(in alloc; "bad {}:{}", spot.line, spot.column),
        Err(LexFault::Unended(spot)) => format!(in alloc; "unended {}:{}", spot.line, spot.column),
        Err(LexFault::UnknownQualifier(spot)) => format!(in alloc;
            "unknown {}:{}",
            spot.line, spot.column
        ),
        Err(LexFault::NoMemory) => format!(in alloc; "no memory"),
    }
}

/// A unit's number, its bytes, and the kinds of its tokens or the fault with its line and column.
static CASES: [(u32, &[u8], &str); 96] = [
    (1, b"", "end "),
    (1, b"a+++b", "n0 PlusPlus Plus n1 end "),
    (1, b"a-->b", "n0 MinusMinus Greater n1 end "),
    (1, b"x->y", "n0 Arrow n1 end "),
    (1, b"...", "Ellipsis end "),
    (1, b"..", "Dot Dot end "),
    (1, b"....", "Ellipsis Dot end "),
    (
        1,
        b"<<=<<<=<",
        "ShiftLeftEqual ShiftLeft LessEqual Less end ",
    ),
    (
        1,
        b">>=>>>=>",
        "ShiftRightEqual ShiftRight GreaterEqual Greater end ",
    ),
    (
        1,
        b"[](){}",
        "OpenBracket CloseBracket OpenParen CloseParen OpenBrace CloseBrace end ",
    ),
    (
        1,
        b"&&&|||^~!%?:;,=",
        "AmpersandAmpersand Ampersand BarBar Bar Caret Tilde Bang Percent Question Colon Semicolon Comma Equal end ",
    ),
    (
        1,
        b"*= /= %= += -= &= ^= |= == !=",
        "StarEqual SlashEqual PercentEqual PlusEqual MinusEqual AmpersandEqual CaretEqual BarEqual EqualEqual BangEqual end ",
    ),
    (1, b"* / + -", "Star Slash Plus Minus end "),
    (1, b"a/ *b", "n0 Slash Star n1 end "),
    (1, b".5e+3", "number end "),
    (1, b"0x1p-3L", "number end "),
    (1, b"1..2", "number end "),
    (1, b"0xe+1", "number end "),
    (1, b"1+2", "number Plus number end "),
    (1, b"1f+2", "number Plus number end "),
    (1, b".e1", "Dot n0 end "),
    (1, b"5_a$", "unknown 1:4"),
    (1, b"L'\\''", "char end "),
    (1, b"''", "char end "),
    (1, b"\"\"", "text end "),
    (1, b"u8\"x\"", "text end "),
    (1, b"U\"\\n\"", "text end "),
    (1, b"u8'a'", "n0 char end "),
    (1, b"uL\"x\"", "n0 text end "),
    (1, b"L\"a\"b", "text n0 end "),
    (1, b"\"a\\\\\"", "text end "),
    (1, b"\"a\" \"b\"'\"'", "text text char end "),
    (1, b"'a", "unended 1:1"),
    (1, b"L\"ab", "unended 1:2"),
    (1, b"\"ab\\\"", "unended 1:1"),
    (1, b"x \"a\nb\"", "unended 1:3"),
    (1, b"'\\\n'", "unended 1:1"),
    (1, b"char *s = \"ab", "unended 1:11"),
    (1, b"/*/", "unended 1:1"),
    (1, b"/*/ */a", "n0 end "),
    (1, b"/**/a", "n0 end "),
    (1, b"a/*\n\n*/b @", "bad 3:5"),
    (1, b"//", "end "),
    (1, b"a // b", "n0 end "),
    (1, b"a//b\nc", "n0 n1 end "),
    (1, b"a /* // */ b", "n0 n1 end "),
    (1, b"a // /* \n b", "n0 n1 end "),
    (1, b"a # b", "bad 1:3"),
    (1, b"#", "end "),
    (1, b"# x\na", "n0 end "),
    (1, b" \t# \"x\na", "n0 end "),
    (1, b"\x0b#", "bad 1:2"),
    (1, b"\x0c#", "bad 1:2"),
    (1, b"\r#", "bad 1:2"),
    (1, b"/**/#", "bad 1:5"),
    (1, b"\x0b\x0c\r a", "n0 end "),
    (1, b"$tainted x", "q0.1 n0 end "),
    (0, b"$_1 $tainted", "index q0.1 end "),
    (1, b"$_1 $tainted", "q1.0 q0.1 end "),
    (0, b"$_x", "index end "),
    (0, b"$_", "index end "),
    (0, b"$x", "unknown 1:1"),
    (1, b"$", "unknown 1:1"),
    (1, b"$odd int x;", "unknown 1:1"),
    (1, b"a $taintedx", "unknown 1:3"),
    (1, b"\"$odd\" '$' // $odd", "text char end "),
    (1, b"\xff", "bad 1:1"),
    (1, b"a\x80", "bad 1:2"),
    (1, b"/*\xff*/a", "n0 end "),
    (1, b"// \xff\na", "n0 end "),
    (1, b"\"\xff\"", "text end "),
    (1, b"'\xc3\xa9'", "char end "),
    (1, b"# \xff\na", "n0 end "),
    (1, b"a\x00", "bad 1:2"),
    (1, b"int x = 1 @ 2;", "bad 1:11"),
    (1, b"# 7 \"in.c\"\n `", "bad 7:2"),
    (1, b"a b a c b", "n0 n1 n0 n2 n1 end "),
    (1, b"ifx if iF", "n0 If n1 end "),
    (1, b"_ __ a1 A1", "n0 n1 n2 n3 end "),
    (1, b"const_ const", "n0 Const end "),
    (
        1,
        b"auto break case char const continue default do double else enum extern float",
        "Auto Break Case Char Const Continue Default Do Double Else Enum Extern Float end ",
    ),
    (
        1,
        b"for goto if inline int long register restrict return short signed sizeof",
        "For Goto If Inline Int Long Register Restrict Return Short Signed Sizeof end ",
    ),
    (
        1,
        b"static struct switch typedef union unsigned void volatile while",
        "Static Struct Switch Typedef Union Unsigned Void Volatile While end ",
    ),
    (
        1,
        b"_Bool _Complex _Imaginary __complex__",
        "Bool Complex Imaginary Complex end ",
    ),
    (
        1,
        b"__const __const__ __volatile __volatile__ __restrict __restrict__",
        "Const Const Volatile Volatile Restrict Restrict end ",
    ),
    (
        1,
        b"__inline __inline__ __signed __signed__",
        "Inline Inline Signed Signed end ",
    ),
    (
        1,
        b"asm __asm __asm__ __attribute __attribute__",
        "Asm Asm Asm Attribute Attribute end ",
    ),
    (
        1,
        b"__alignof __alignof__ _Alignof __thread _Thread_local",
        "Alignof Alignof Alignof Thread Thread end ",
    ),
    (
        1,
        b"__extension__ _Noreturn _Static_assert __int128",
        "Extension Noreturn StaticAssert Int128 end ",
    ),
    (
        1,
        b"__builtin_va_list __int128_t __uint128_t _Float16 _Float32",
        "BaseWord BaseWord BaseWord BaseWord BaseWord end ",
    ),
    (
        1,
        b"_Float64 _Float128 _Float32x _Float64x __float128",
        "BaseWord BaseWord BaseWord BaseWord BaseWord end ",
    ),
    (
        1,
        b"__func__ __FUNCTION__ __PRETTY_FUNCTION__",
        "text text text end ",
    ),
    (
        1,
        b"__builtin_va_arg __builtin_va_start __builtin_va_copy __builtin_offsetof",
        "VaArg VaStart VaCopy Offsetof end ",
    ),
    (
        1,
        b"typeof __typeof __typeof__ _Generic _Atomic _Alignas",
        "Reserved Reserved Reserved Reserved Reserved Reserved end ",
    ),
    (
        1,
        b"__auto_type __label__ __real__ __imag__",
        "Reserved Reserved Reserved Reserved end ",
    ),
    (
        1,
        b"__builtin_types_compatible_p __builtin_choose_expr",
        "Reserved Reserved end ",
    ),
];

/// The bytes of unit 1, a token of it, and the byte range of its file name with its line and column.
static PLACES: [(&[u8], u32, &str); 24] = [
    (b"x", 0, "0-0 1:1"),
    (b"\n\n  x", 0, "0-0 3:3"),
    (b"a b\n c", 2, "0-0 2:2"),
    (b"# 7 \"a\\\"b.c\" 1 3\nx", 0, "5-11 7:1"),
    (b"  # 12 \"y.c\"\nx\n y", 1, "8-11 13:2"),
    (b"# 12 \"y.c\" \nx", 0, "0-0 2:1"),
    (b"# 1234567890 \"w\"\nx", 0, "0-0 2:1"),
    (b"# 000000007 \"a\"\nx", 0, "13-14 7:1"),
    (b"#1 \"f\"\nx", 0, "0-0 2:1"),
    (b"# 5 \"\"\nx", 0, "5-5 5:1"),
    (b"#\t5\t\"f\"\t4\t1\nx", 0, "5-6 5:1"),
    (b"# 7 \"a\" 5\nx", 0, "0-0 2:1"),
    (b"# 7 \"a\"1\nx", 0, "0-0 2:1"),
    (b"# 7 \"a\" 12\nx", 0, "0-0 2:1"),
    (b"# 7 a\nx", 0, "0-0 2:1"),
    (b"# 7 \"a\nx", 0, "0-0 2:1"),
    (b"# 3 \"a\"\r\nx", 0, "0-0 2:1"),
    (b"#line 3 \"z\"\nx", 0, "0-0 2:1"),
    (b"x\n# 9 \"f\"", 1, "0-0 2:8"),
    (b"x\n# 9 \"f\"\n", 1, "7-8 9:1"),
    (b"/*\n# 9 \"f\"\n*/ x", 0, "0-0 3:4"),
    (b"# 3 \"a\"\n\n# 4 \"b\" 2\nx", 0, "14-15 4:1"),
    (b"# 3 \"a\"\nx\n\n# 40 \"b\"\ny", 0, "5-6 3:1"),
    (b"# 3 \"a\"\nx\n\n# 40 \"b\"\ny", 1, "17-18 40:1"),
];

fn placed(rt: &impl Abort, alloc: Global, source: &[u8], at: u32) -> Result<String, AllocError> {
    assert!(rt; source.len() < 1000);
    let tokens = lex(alloc, UnitNo::new(1), false, source, &words(rt, alloc)).expect(rt, "tokens");
    assert!(rt; at < tokens.len());
    spot_text(alloc, tokens.place_of(TokenId::new(at)))
}

#[test]
fn each_snippet_has_its_tokens(rt: HostRuntime) -> Result<(), Fail> {
    let alloc = rt.alloc();
    for (unit, source, expected) in &CASES {
        let text = shown(&rt, alloc, *unit, *source)?;
        assert_eq!(rt; text.as_str(), *expected);
    }
    Ok(())
}

#[test]
fn linemarkers_place_the_lines_behind_them(rt: HostRuntime) -> Result<(), Fail> {
    let alloc = rt.alloc();
    for (source, at, expected) in &PLACES {
        let text = placed(&rt, alloc, *source, *at)?;
        assert_eq!(rt; text.as_str(), *expected);
    }
    Ok(())
}

#[test]
fn readers_answer_of_each_token(rt: HostRuntime) -> Result<(), Fail> {
    let alloc = rt.alloc();
    let tokens = lex(
        alloc,
        UnitNo::new(1),
        false,
        b"const $tainted x",
        &words(&rt, alloc),
    )
    .expect(&rt, "tokens");
    assert_eq!(rt; tokens.unit(), UnitNo::new(1));
    assert_eq!(rt; tokens.unit_bytes(), b"const $tainted x".as_slice());
    assert_eq!(rt; tokens.len(), 4);
    assert_eq!(rt; tokens.bytes(TokenId::new(1)), b"$tainted".as_slice());
    assert_eq!(rt; tokens.start(TokenId::new(2)), 15);
    assert_eq!(rt;
        tokens.mark_of(TokenId::new(0)),
        Some((LatticeNo::new(2), Elem::new(3)))
    );
    assert_eq!(rt;
        tokens.mark_of(TokenId::new(1)),
        Some((LatticeNo::new(0), Elem::new(1)))
    );
    assert_eq!(rt; tokens.mark_of(TokenId::new(2)), None);
    Ok(())
}
