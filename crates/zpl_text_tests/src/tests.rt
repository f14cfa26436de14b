use Key::*;
use Kind::{Ditto, End, Name, Number, Str, Symbol, Word};
use LexFault::*;
use Sym::*;
use std::alloc::Global;
use std::process::Abort;
use std::test::Fail;
use zpl_text::{Key, Kind, LexFault, Lines, Sym, Token, lex, line_at, unescape};

/// A text, its tokens up to the end or the fault, and what `lex` answers.
type Row = (
    &'static [u8],
    &'static [(Kind, u32, u32)],
    Result<(), LexFault>,
);

/// Cuts the text behind a token that is there already, and compares.
fn expect(rt: &impl Abort, alloc: Global, row: Row) -> Result<(), Fail> {
    let (text, tokens, answer) = row;
    let before = Token {
        kind: Name,
        from: 7,
        to: 8,
    };
    let mut into = Vec::new(alloc);
    into.push(before)?;
    assert!(rt; text.len() <= 1000);
    assert!(rt; lex(alloc, text, &mut into) == answer);
    assert!(rt; into.len() == tokens.len() + 1);
    assert!(rt; into[0] == before);
    for (found, (kind, from, to)) in into[1..].iter().zip(tokens) {
        let token = Token {
            kind: *kind,
            from: *from,
            to: *to,
        };
        assert!(rt; *found == token);
    }
    Ok(())
}

/// Spaces and comments.
const GAPS: [Row; 17] = [
    (b"", &[(End, 0, 0)], Ok(())),
    (b" \t\r\n", &[(End, 4, 4)], Ok(())),
    (b"-- end", &[(End, 6, 6)], Ok(())),
    (b"a--b", &[(Name, 0, 1), (End, 4, 4)], Ok(())),
    (
        b"a - -b",
        &[
            (Name, 0, 1),
            (Symbol(Minus), 2, 3),
            (Symbol(Minus), 4, 5),
            (Name, 5, 6),
            (End, 6, 6),
        ],
        Ok(()),
    ),
    (
        b"a-- x\nb",
        &[(Name, 0, 1), (Name, 6, 7), (End, 7, 7)],
        Ok(()),
    ),
    (
        b"a/*\n*/b",
        &[(Name, 0, 1), (Name, 6, 7), (End, 7, 7)],
        Ok(()),
    ),
    (
        b"/* /* */ a */",
        &[
            (Name, 9, 10),
            (Symbol(Star), 11, 12),
            (Symbol(Slash), 12, 13),
            (End, 13, 13),
        ],
        Ok(()),
    ),
    (b"/**/", &[(End, 4, 4)], Ok(())),
    (b"/***/", &[(End, 5, 5)], Ok(())),
    (b"a /*/", &[(Name, 0, 1)], Err(OpenComment(2))),
    (b"/* *", &[], Err(OpenComment(0))),
    (b"--/*\na", &[(Name, 5, 6), (End, 6, 6)], Ok(())),
    (b"-- \x00\xff\n/*\x00\xff*/", &[(End, 12, 12)], Ok(())),
    (b" \x00", &[], Err(BadByte(1))),
    (b"a\xff", &[(Name, 0, 1)], Err(BadByte(1))),
    (b"\x0b", &[], Err(BadByte(0))),
];

#[test]
fn gaps(rt: HostRuntime) -> Result<(), Fail> {
    for row in GAPS {
        expect(&rt, rt.alloc(), row)?;
    }
    Ok(())
}

/// Names and keywords.
const WORDS: [Row; 7] = [
    (b"_a1 Z", &[(Name, 0, 3), (Name, 4, 5), (End, 5, 5)], Ok(())),
    (b"endx", &[(Name, 0, 4), (End, 4, 4)], Ok(())),
    (
        b"End en",
        &[(Name, 0, 3), (Name, 4, 6), (End, 6, 6)],
        Ok(()),
    ),
    (
        b"1a",
        &[(Number(1), 0, 1), (Name, 1, 2), (End, 2, 2)],
        Ok(()),
    ),
    (
        b"program config var constant region direction procedure begin",
        &[
            (Word(Program), 0, 7),
            (Word(Config), 8, 14),
            (Word(Var), 15, 18),
            (Word(Constant), 19, 27),
            (Word(Region), 28, 34),
            (Word(Direction), 35, 44),
            (Word(Procedure), 45, 54),
            (Word(Begin), 55, 60),
            (End, 60, 60),
        ],
        Ok(()),
    ),
    (
        b"end if then elsif else while do repeat until for to downto by of in at",
        &[
            (Word(Key::End), 0, 3),
            (Word(If), 4, 6),
            (Word(Then), 7, 11),
            (Word(Elsif), 12, 17),
            (Word(Else), 18, 22),
            (Word(While), 23, 28),
            (Word(Do), 29, 31),
            (Word(Repeat), 32, 38),
            (Word(Until), 39, 44),
            (Word(For), 45, 48),
            (Word(To), 49, 51),
            (Word(Downto), 52, 58),
            (Word(By), 59, 61),
            (Word(Of), 62, 64),
            (Word(In), 65, 67),
            (Word(Key::At), 68, 70),
            (End, 70, 70),
        ],
        Ok(()),
    ),
    (
        b"with without wrap reflect return integer boolean true false max min abs write writeln \
Index1 Index2 Index3",
        &[
            (Word(With), 0, 4),
            (Word(Without), 5, 12),
            (Word(Wrap), 13, 17),
            (Word(Reflect), 18, 25),
            (Word(Return), 26, 32),
            (Word(Integer), 33, 40),
            (Word(Boolean), 41, 48),
            (Word(True), 49, 53),
            (Word(False), 54, 59),
            (Word(Max), 60, 63),
            (Word(Min), 64, 67),
            (Word(Abs), 68, 71),
            (Word(Write), 72, 77),
            (Word(Writeln), 78, 85),
            (Word(Index1), 86, 92),
            (Word(Index2), 93, 99),
            (Word(Index3), 100, 106),
            (End, 106, 106),
        ],
        Ok(()),
    ),
];

#[test]
fn words(rt: HostRuntime) -> Result<(), Fail> {
    for row in WORDS {
        expect(&rt, rt.alloc(), row)?;
    }
    Ok(())
}

/// Symbols, the longest first.
const SYMBOLS: [Row; 9] = [
    (
        b":= += -= *= /= %= &= |= .. << >> || <= >= !=",
        &[
            (Symbol(Assign), 0, 2),
            (Symbol(AddAssign), 3, 5),
            (Symbol(SubAssign), 6, 8),
            (Symbol(MulAssign), 9, 11),
            (Symbol(DivAssign), 12, 14),
            (Symbol(RemAssign), 15, 17),
            (Symbol(AndAssign), 18, 20),
            (Symbol(OrAssign), 21, 23),
            (Symbol(DotDot), 24, 26),
            (Symbol(Reduce), 27, 29),
            (Symbol(Flood), 30, 32),
            (Symbol(Scan), 33, 35),
            (Symbol(LessEqual), 36, 38),
            (Symbol(GreaterEqual), 39, 41),
            (Symbol(NotEqual), 42, 44),
            (End, 44, 44),
        ],
        Ok(()),
    ),
    (
        b"= < > + - * / % & | ! ( ) [ ] , ; : @ # ^",
        &[
            (Symbol(Equal), 0, 1),
            (Symbol(Less), 2, 3),
            (Symbol(Greater), 4, 5),
            (Symbol(Plus), 6, 7),
            (Symbol(Minus), 8, 9),
            (Symbol(Star), 10, 11),
            (Symbol(Slash), 12, 13),
            (Symbol(Percent), 14, 15),
            (Symbol(And), 16, 17),
            (Symbol(Or), 18, 19),
            (Symbol(Not), 20, 21),
            (Symbol(OpenParen), 22, 23),
            (Symbol(CloseParen), 24, 25),
            (Symbol(OpenBracket), 26, 27),
            (Symbol(CloseBracket), 28, 29),
            (Symbol(Comma), 30, 31),
            (Symbol(Semicolon), 32, 33),
            (Symbol(Colon), 34, 35),
            (Symbol(Sym::At), 36, 37),
            (Symbol(Hash), 38, 39),
            (Symbol(Caret), 40, 41),
            (End, 41, 41),
        ],
        Ok(()),
    ),
    (
        b"<<=",
        &[(Symbol(Reduce), 0, 2), (Symbol(Equal), 2, 3), (End, 3, 3)],
        Ok(()),
    ),
    (b"||", &[(Symbol(Scan), 0, 2), (End, 2, 2)], Ok(())),
    (
        b"|||",
        &[(Symbol(Or), 0, 1), (Symbol(Scan), 1, 3), (End, 3, 3)],
        Ok(()),
    ),
    (
        b"||||",
        &[
            (Symbol(Or), 0, 1),
            (Symbol(Or), 1, 2),
            (Symbol(Scan), 2, 4),
            (End, 4, 4),
        ],
        Ok(()),
    ),
    (
        b"|||=",
        &[
            (Symbol(Or), 0, 1),
            (Symbol(Scan), 1, 3),
            (Symbol(Equal), 3, 4),
            (End, 4, 4),
        ],
        Ok(()),
    ),
    (b".", &[], Err(BadByte(0))),
    (b"...", &[(Symbol(DotDot), 0, 2)], Err(BadByte(2))),
];

#[test]
fn symbols(rt: HostRuntime) -> Result<(), Fail> {
    for row in SYMBOLS {
        expect(&rt, rt.alloc(), row)?;
    }
    Ok(())
}

/// Numbers, and texts of floats.
const NUMBERS: [Row; 14] = [
    (b"007", &[(Number(7), 0, 3), (End, 3, 3)], Ok(())),
    (
        b"9223372036854775807",
        &[(Number(9223372036854775807), 0, 19), (End, 19, 19)],
        Ok(()),
    ),
    (b" 9223372036854775808", &[], Err(NumberTooLarge(1))),
    (b"18446744073709551616", &[], Err(NumberTooLarge(0))),
    (b"99999999999999999999999", &[], Err(NumberTooLarge(0))),
    (b"99999999999999999999999.", &[], Err(FloatText(0))),
    (
        b"1..2",
        &[
            (Number(1), 0, 1),
            (Symbol(DotDot), 1, 3),
            (Number(2), 3, 4),
            (End, 4, 4),
        ],
        Ok(()),
    ),
    (b"1.5", &[], Err(FloatText(0))),
    (b"1.", &[], Err(FloatText(0))),
    (b"1.e", &[], Err(FloatText(0))),
    (b"a 1e5", &[(Name, 0, 1)], Err(FloatText(2))),
    (b"1E+", &[], Err(FloatText(0))),
    (b"1e-", &[], Err(FloatText(0))),
    (
        b"1e 1ex",
        &[
            (Number(1), 0, 1),
            (Name, 1, 2),
            (Number(1), 3, 4),
            (Name, 4, 6),
            (End, 6, 6),
        ],
        Ok(()),
    ),
];

#[test]
fn numbers(rt: HostRuntime) -> Result<(), Fail> {
    for row in NUMBERS {
        expect(&rt, rt.alloc(), row)?;
    }
    Ok(())
}

/// Strings, and the mark that stands for the region around.
const STRINGS: [Row; 20] = [
    (b"\"\"", &[(Str, 0, 2), (End, 2, 2)], Ok(())),
    (b"\"a\\\"b\"", &[(Str, 0, 6), (End, 6, 6)], Ok(())),
    (
        b"\"\\n\\t\\\\\"\"\"",
        &[(Str, 0, 8), (Str, 8, 10), (End, 10, 10)],
        Ok(()),
    ),
    (b"\"--/*\"", &[(Str, 0, 6), (End, 6, 6)], Ok(())),
    (b"\"\x00\xff\r\"", &[(Str, 0, 5), (End, 5, 5)], Ok(())),
    (b"\"a\\q\"", &[], Err(BadByte(2))),
    (b"\"a\\\n\"", &[], Err(BadByte(2))),
    (b"\"a\\", &[], Err(BadByte(2))),
    (b" \"a\nb\"", &[], Err(OpenString(1))),
    (b"\"a", &[], Err(OpenString(0))),
    (b"\"", &[], Err(OpenString(0))),
    (
        b"[\"",
        &[(Symbol(OpenBracket), 0, 1), (Ditto, 1, 2), (End, 2, 2)],
        Ok(()),
    ),
    (
        b"[ /* c */ \"",
        &[(Symbol(OpenBracket), 0, 1), (Ditto, 10, 11), (End, 11, 11)],
        Ok(()),
    ),
    (
        b"of--\n\"",
        &[(Word(Of), 0, 2), (Ditto, 5, 6), (End, 6, 6)],
        Ok(()),
    ),
    (
        b"in\"",
        &[(Word(In), 0, 2), (Ditto, 2, 3), (End, 3, 3)],
        Ok(()),
    ),
    (
        b"[\"a\"",
        &[(Symbol(OpenBracket), 0, 1), (Ditto, 1, 2), (Name, 2, 3)],
        Err(OpenString(3)),
    ),
    (
        b"[\"\"\"",
        &[
            (Symbol(OpenBracket), 0, 1),
            (Ditto, 1, 2),
            (Str, 2, 4),
            (End, 4, 4),
        ],
        Ok(()),
    ),
    (b"]\"", &[(Symbol(CloseBracket), 0, 1)], Err(OpenString(1))),
    (
        b"offof \"x\"",
        &[(Name, 0, 5), (Str, 6, 9), (End, 9, 9)],
        Ok(()),
    ),
    (
        b"at\"x\"",
        &[(Word(Key::At), 0, 2), (Str, 2, 5), (End, 5, 5)],
        Ok(()),
    ),
];

#[test]
fn strings(rt: HostRuntime) -> Result<(), Fail> {
    for row in STRINGS {
        expect(&rt, rt.alloc(), row)?;
    }
    Ok(())
}

#[test]
fn faults_tell_their_names_and_places(rt: HostRuntime) {
    for (fault, name, at) in [
        (BadByte(7), "BadByte", 7),
        (OpenComment(0), "OpenComment", 0),
        (OpenString(1), "OpenString", 1),
        (
            NumberTooLarge(4_294_967_295),
            "NumberTooLarge",
            4_294_967_295,
        ),
        (FloatText(12), "FloatText", 12),
        (NoMemory, "NoMemory", 0),
    ] {
        assert!(rt; fault.name() == name);
        assert!(rt; fault.at() == at);
    }
}

#[test]
fn lines(rt: HostRuntime) {
    let text = b"a\n\nb\n";
    let mut lines = Lines::of(text);
    assert!(rt; text.len() <= 1000);
    for (at, line) in [
        (0, 1),
        (1, 1),
        (2, 2),
        (3, 3),
        (5, 4),
        (900, 4),
        (1, 1),
        (4, 3),
    ] {
        assert!(rt; lines.line_at(at) == Some(line));
        assert!(rt; line_at(text, at) == line);
    }
}

#[test]
fn many_lines(rt: HostRuntime) -> Result<(), Fail> {
    let text = vec![in rt.alloc(); b'\n'; 70_000]?;
    let mut lines = Lines::of(text.as_slice());
    assert!(rt; lines.line_at(69_999) == Some(70_000));
    assert!(rt; lines.line_at(4_294_967_295) == Some(70_001));
    Ok(())
}

#[test]
fn strings_stand_for_bytes(rt: HostRuntime) -> Result<(), Fail> {
    let rows: [(&[u8], &[u8]); 6] = [
        (b"", b""),
        (b"sum ", b"sum "),
        (b"a\\n\\tb", b"a\n\tb"),
        (b"\\\\n", b"\\n"),
        (b"\\\"", b"\""),
        (b"a\\", b"a"),
    ];
    for (string, text) in rows {
        assert!(rt; unescape(rt.alloc(), string)?.as_slice() == text);
    }
    Ok(())
}
