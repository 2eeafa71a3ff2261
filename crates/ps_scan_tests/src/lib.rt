//! Worked examples of the scanner: what texts are read as.
#![tactic(auto)]

use ps_scan::{ScanFault, Scanner, Token, TokenBytes};
use std::alloc::{AllocError, Global};
use std::test::Fail;

/// The bytes as characters of the same numbers; over 40 of them as their number alone.
fn push_bytes(out: &mut String, kind: &str, bytes: &[u8]) -> Result<(), AllocError> {
    out.push_str(kind)?;
    if bytes.len() > 40 {
        return out.push_str("(long)");
    }
    for byte in bytes {
        out.push(char::from(*byte))?;
    }
    Ok(())
}

fn push_token(alloc: Global, out: &mut String, token: &Token) -> Result<(), Fail> {
    match token {
        Token::Int(value) => out.push_str(&format!(in alloc; "Int {}", value.get())?)?,
        Token::Real(value) => out.push_str(&format!(in alloc; "Real {}", value.raw())?)?,
        Token::Literal(name) => push_bytes(out, "Literal ", name.bytes())?,
        Token::Exec(name) => push_bytes(out, "Exec ", name.bytes())?,
        Token::Now(name) => push_bytes(out, "Now ", name.bytes())?,
        Token::Text(bytes) => push_bytes(out, "Text ", bytes.items())?,
        Token::Open => out.push_str("Open")?,
        Token::Close => out.push_str("Close")?,
        Token::End => out.push_str("End")?,
    }
    Ok(())
}

fn push_fault(out: &mut String, fault: ScanFault) -> Result<(), AllocError> {
    match fault {
        ScanFault::Syntax => out.push_str("Syntax"),
        ScanFault::Limit => out.push_str("Limit"),
        ScanFault::NoMemory => out.push_str("NoMemory"),
    }
}

/// The tokens up to the end or the first fault, with bars between.
fn outcomes(alloc: Global, program: Vec<u8>) -> Result<String, Fail> {
    let mut scanner = Scanner::new(program);
    let mut out = String::new(alloc);
    for _ in 0..100u32 {
        match scanner.next(alloc) {
            Ok(token) => {
                push_token(alloc, &mut out, &token)?;
                if let Token::End = token {
                    return Ok(out);
                }
                out.push_str("|")?;
            }
            Err(fault) => {
                push_fault(&mut out, fault)?;
                return Ok(out);
            }
        }
    }
    Ok(out)
}

/// A name, a program, and what it is read as.
type Spelling = (&'static str, &'static [u8], &'static str);

const NUMBERS: [Spelling; 30] = [
    (
        "a line of all kinds",
        b"2#1011 -.5 1e-1 <9> (a\\(b\\)) 8#9",
        "Int 11|Real -32768|Real 6554|Text \u{90}|Text a(b)|Exec 8#9|End",
    ),
    (
        "signs and leading zeros",
        b"+17 -0 -007",
        "Int 17|Int 0|Int -7|End",
    ),
    ("the greatest integer", b"2147483647", "Int 2147483647|End"),
    ("one over it", b"2147483648", "Limit"),
    ("the least integer", b"-2147483648", "Int -2147483648|End"),
    ("one below it", b"-2147483649", "Limit"),
    ("many digits", b"99999999999999999999999999", "Limit"),
    (
        "many leading zeros",
        b"00000000000000000000000000000000000000001",
        "Int 1|End",
    ),
    (
        "a point among, before and behind the digits",
        b"+1.5 .5 1. 0.0",
        "Real 98304|Real 32768|Real 65536|Real 0|End",
    ),
    (
        "no digits",
        b". -. + - --1",
        "Exec .|Exec -.|Exec +|Exec -|Exec --1|End",
    ),
    (
        "two points, or a sign inside",
        b"1.2.3 1-2 1.-2",
        "Exec 1.2.3|Exec 1-2|Exec 1.-2|End",
    ),
    (
        "exponents",
        b"1e2 1E2 1e+2 15e-1 1.5e1 .1e1 1.e1",
        "Real 6553600|Real 6553600|Real 6553600|Real 98304|Real 983040|Real 65536|Real 655360|End",
    ),
    (
        "no exponents",
        b"1e 1e+ e5 .e1 1e5. 1e1e1",
        "Exec 1e|Exec 1e+|Exec e5|Exec .e1|Exec 1e5.|Exec 1e1e1|End",
    ),
    (
        "exponents of four digits",
        b"0e9999 1e-9999 1e0002",
        "Real 0|Real 0|Real 6553600|End",
    ),
    ("an exponent of five digits", b"1e00001", "Limit"),
    ("an exponent that is too great", b"1e9999", "Limit"),
    (
        "a mantissa of 30 digits",
        b"00000000000000000000000000000.5",
        "Real 32768|End",
    ),
    (
        "a mantissa of 31 digits",
        b"000000000000000000000000000000.5",
        "Limit",
    ),
    (
        "halves go up",
        b"0.00000762939453125 -0.00000762939453125",
        "Real 1|Real 0|End",
    ),
    (
        "less than a half goes down",
        b"0.00000762939453124 0.00000762939453124999999999999",
        "Real 0|Real 0|End",
    ),
    (
        "the greatest real",
        b"2147483647.99999",
        "Real 140737488355327|End",
    ),
    ("one that rounds past it", b"2147483647.999995", "Limit"),
    (
        "the least real",
        b"-2147483648.0 -2147483648.000007",
        "Real -140737488355328|Real -140737488355328|End",
    ),
    ("one that rounds below it", b"-2147483648.00001", "Limit"),
    (
        "radix numbers",
        b"16#FF 16#ff 36#Zz 02#11 10#09",
        "Int 255|Int 255|Int 1295|Int 3|Int 9|End",
    ),
    (
        "a digit that the base hasn't",
        b"2#2 8#8 16#G 10#A",
        "Exec 2#2|Exec 8#8|Exec 16#G|Exec 10#A|End",
    ),
    (
        "bases that are none",
        b"1#0 37#1 00#0 002#1 +2#1 -2#1 #1",
        "Exec 1#0|Exec 37#1|Exec 00#0|Exec 002#1|Exec +2#1|Exec -2#1|Exec #1|End",
    ),
    (
        "radix digits missing or mixed",
        b"2# 2#1#1 16#F.F 2#-1",
        "Exec 2#|Exec 2#1#1|Exec 16#F.F|Exec 2#-1|End",
    ),
    (
        "radix numbers of 32 bits",
        b"16#7FFFFFFF 16#80000000 16#FFFFFFFF 16#0000000000FF",
        "Int 2147483647|Int -2147483648|Int -1|Int 255|End",
    ),
    ("radix numbers over 32 bits", b"16#100000000", "Limit"),
];

const STRINGS: [Spelling; 35] = [
    (
        "escapes",
        b"(\\n\\r\\t\\b\\f\\\\\\(\\))",
        "Text \n\r\t\u{8}\u{c}\\()|End",
    ),
    (
        "other escapes stand for themselves",
        b"(\\x\\y\\%)",
        "Text xy%|End",
    ),
    (
        "one, two and three octal digits",
        b"(\\7\\61\\101)",
        "Text \u{7}1A|End",
    ),
    (
        "octal digits end before others",
        b"(\\08\\18\\778)",
        "Text \u{0}8\u{1}8?8|End",
    ),
    ("a fourth digit is none", b"(\\1234)", "Text S4|End"),
    (
        "octal overflow",
        b"(\\777\\400\\501)",
        "Text \u{ff}\u{0}A|End",
    ),
    (
        "line ends in a string",
        b"(a\r\nb\rc\nd)",
        "Text a\nb\nc\nd|End",
    ),
    (
        "line ends one behind another",
        b"(a\r\r\n\nb)",
        "Text a\n\n\nb|End",
    ),
    (
        "a form feed is no line end in a string",
        b"(a\x0cb)",
        "Text a\u{c}b|End",
    ),
    (
        "line ends behind a backslash go",
        b"(a\\\r\nb\\\rc\\\nd)",
        "Text abcd|End",
    ),
    (
        "but only one of them",
        b"(a\\\n\nb\\\r\n\nc)",
        "Text a\nb\nc|End",
    ),
    ("nested parentheses", b"(a(b(c))d)", "Text a(b(c))d|End"),
    (
        "an escaped parenthesis doesn't nest",
        b"(a\\)b\\(c)",
        "Text a)b(c|End",
    ),
    ("an empty string", b"()", "Text |End"),
    (
        "comments and delimiters in a string",
        b"(a%b{/<)",
        "Text a%b{/<|End",
    ),
    ("an unclosed string", b"(abc", "Syntax"),
    ("an unclosed string, nested", b"(a(b)", "Syntax"),
    (
        "an unclosed string that ends in a backslash",
        b"(a\\",
        "Syntax",
    ),
    (
        "an unclosed string that ends in an octal escape",
        b"(a\\1",
        "Syntax",
    ),
    (
        "an unclosed string whose parenthesis is escaped",
        b"(a\\)",
        "Syntax",
    ),
    ("a lone right parenthesis", b"(a))", "Text a|Syntax"),
    (
        "hexadecimal digits and white space",
        b"<48 65\t6C\r\n6c\x006F>",
        "Text Hello|End",
    ),
    ("an odd last digit", b"<4 1 4>", "Text A@|End"),
    ("no digits", b"<> < >", "Text |Text |End"),
    ("another byte among the digits", b"<4g>", "Syntax"),
    ("a comment among the digits", b"<41%c\n>", "Syntax"),
    ("an unclosed hexadecimal string", b"<41", "Syntax"),
    ("a lone less-than sign", b"<", "Syntax"),
    ("a lone greater-than sign", b"<41>>", "Text A|Syntax"),
    ("an ASCII base-85 string", b"<~41~>", "Syntax"),
    (
        "an unclosed procedure",
        b"{ {} a",
        "Open|Open|Close|Exec a|Syntax",
    ),
    ("a lone right brace", b"{}}", "Open|Close|Syntax"),
    (
        "a brace behind a name",
        b"{a}b{",
        "Open|Exec a|Close|Exec b|Open|Syntax",
    ),
    ("a fault behind tokens", b"1 )", "Int 1|Syntax"),
    ("braces in a string", b"({)", "Text {|End"),
];

const NAMES: [Spelling; 14] = [
    (
        "names in a row",
        b"abc/def//ghi",
        "Exec abc|Literal def|Now ghi|End",
    ),
    ("a solidus alone", b"/ 5", "Literal |Int 5|End"),
    ("two solidi alone", b"//", "Now |End"),
    ("three solidi", b"///a", "Now |Literal a|End"),
    (
        "what is behind a solidus is no number",
        b"/1 //2 /2#1",
        "Literal 1|Now 2|Literal 2#1|End",
    ),
    (
        "brackets are names",
        b"[]<<>>",
        "Exec [|Exec ]|Exec <<|Exec >>|End",
    ),
    (
        "delimiters end names",
        b"a(b)c<41>d{e}f[g%h",
        "Exec a|Text b|Exec c|Text A|Exec d|Open|Exec e|Close|Exec f|Exec [|Exec g|End",
    ),
    (
        "other bytes are regular",
        b"a\x01b\xff a.b'c",
        "Exec a\u{1}b\u{ff}|Exec a.b'c|End",
    ),
    ("no text", b"", "End"),
    ("white space alone", b" \0\t\n\x0c\r", "End"),
    ("a comment alone", b"%", "End"),
    (
        "comments end at three bytes",
        b"%a\n1%b\r2%c\x0c3%d",
        "Int 1|Int 2|Int 3|End",
    ),
    ("a comment between", b"1%(\n%)\r\n2", "Int 1|Int 2|End"),
    (
        "a comment behind a solidus",
        b"/%a\nb",
        "Literal |Exec b|End",
    ),
];

#[test]
fn spellings_are_read_as_in_the_reference(rt: HostRuntime) -> Result<(), Fail> {
    for cases in [NUMBERS.as_slice(), STRINGS.as_slice(), NAMES.as_slice()] {
        for (name, program, expected) in cases {
            let seen = outcomes(rt.alloc(), program.to_vec(rt.alloc())?)?;
            assert_eq!(rt; seen.as_str(), *expected, "{name}");
        }
    }
    Ok(())
}

/// So many times a byte, with text in front and behind.
fn repeated(
    alloc: Global,
    front: &[u8],
    byte: u8,
    count: u32,
    behind: &[u8],
) -> Result<Vec<u8>, AllocError> {
    let mut text = front.to_vec(alloc)?;
    for _ in 0..count {
        text.push(byte)?;
    }
    text.extend_from_slice(behind)?;
    Ok(text)
}

fn outcomes_of(
    alloc: Global,
    front: &str,
    byte: u8,
    count: u32,
    behind: &str,
) -> Result<String, Fail> {
    let program = repeated(alloc, front.as_bytes(), byte, count, behind.as_bytes())?;
    outcomes(alloc, program)
}

#[test]
fn limits_are_kept_to_the_byte(rt: HostRuntime) -> Result<(), Fail> {
    let cases = [
        ("a name of 127 bytes", "", b'a', 127, "", "Exec (long)|End"),
        ("a name of 128 bytes", "", b'a', 128, "", "Limit"),
        (
            "a literal name of 127 bytes",
            "/",
            b'a',
            127,
            "",
            "Literal (long)|End",
        ),
        ("a literal name of 128 bytes", "/", b'1', 128, "", "Limit"),
        (
            "a name looked up at once of 127 bytes",
            "//",
            b'a',
            127,
            "",
            "Now (long)|End",
        ),
        (
            "a name looked up at once of 128 bytes",
            "//",
            b'1',
            128,
            "",
            "Limit",
        ),
        ("an integer of 201 bytes", "", b'0', 200, "1", "Int 1|End"),
        (
            "a radix number of 201 bytes",
            "2#",
            b'0',
            198,
            "1",
            "Int 1|End",
        ),
        (
            "a string of 65535 bytes",
            "(",
            b'a',
            65535,
            ")",
            "Text (long)|End",
        ),
        ("a string of 65536 bytes", "(", b'a', 65536, ")", "Limit"),
        (
            "an unclosed string of 65536 bytes",
            "(",
            b'a',
            65536,
            "",
            "Syntax",
        ),
        (
            "a hexadecimal string of 65535 bytes",
            "<",
            b'4',
            131069,
            ">",
            "Text (long)|End",
        ),
        (
            "a hexadecimal string of 65536 bytes",
            "<",
            b'4',
            131071,
            ">",
            "Limit",
        ),
        (
            "an unclosed hexadecimal string of 65536 bytes",
            "<",
            b'4',
            131071,
            "",
            "Syntax",
        ),
        (
            "another byte behind 65536 bytes",
            "<",
            b'4',
            131071,
            "g>",
            "Syntax",
        ),
    ];
    for (name, front, byte, count, behind, expected) in cases {
        let seen = outcomes_of(rt.alloc(), front, byte, count, behind)?;
        assert_eq!(rt; seen.as_str(), expected, "{name}");
    }
    Ok(())
}

/// The fault that comes next, and `None` where a token comes.
fn next_fault(alloc: Global, scanner: &mut Scanner) -> Option<ScanFault> {
    scanner.next(alloc).err()
}

/// The two faults that come behind 64 of so many open procedures, and whether the scanner stays before them.
fn refused(
    alloc: Global,
    count: u32,
    behind: &str,
) -> Result<(Option<ScanFault>, Option<ScanFault>, bool), Fail> {
    let mut scanner = Scanner::new(repeated(alloc, b"", b'{', count, behind.as_bytes())?);
    for _ in 0..64u32 {
        let _ = scanner.next(alloc);
    }
    let left = scanner.rest().len();
    let first = next_fault(alloc, &mut scanner);
    let second = next_fault(alloc, &mut scanner);
    let stays = scanner.rest().len() == left && scanner.depth() == 64;
    Ok((first, second, stays))
}

#[test]
fn a_refused_token_stays_in_front(rt: HostRuntime) -> Result<(), Fail> {
    let syntax = Some(ScanFault::Syntax);
    let limit = Some(ScanFault::Limit);
    let cases = [
        ("64 open procedures", 64, "", syntax),
        ("65 open procedures", 65, "", limit),
        ("64 open procedures and a fault", 64, " )", syntax),
        ("65 open procedures and a fault", 65, " )", limit),
    ];
    for (name, count, behind, fault) in cases {
        let seen = refused(rt.alloc(), count, behind)?;
        assert_eq!(rt; seen, (fault, fault, true), "{name}");
    }
    Ok(())
}

/// Whether two bytes behind the first token are these, and these are left.
fn takes(alloc: Global, program: &str, taken: &str, left: &str) -> Result<bool, Fail> {
    let mut scanner = Scanner::new(program.as_bytes().to_vec(alloc)?);
    let _ = scanner.next(alloc);
    let mut into = [0u8; 3];
    let count = scanner.take(2, into.as_mut_slice());
    let front = into.iter().take(count);
    Ok(front.eq(taken.as_bytes().iter()) && scanner.rest() == left.as_bytes())
}

#[test]
fn bytes_are_taken_behind_the_last_token(rt: HostRuntime) -> Result<(), Fail> {
    let cases = [
        ("a space goes with a number", "1 ab", "ab", ""),
        (
            "so do a carriage return and a line feed",
            "1\r\nab",
            "ab",
            "",
        ),
        ("a carriage return alone", "1\rab", "ab", ""),
        ("one of two line feeds", "1\n\nab", "\na", "b"),
        ("no delimiter", "1%ab", "%a", "b"),
        ("a space goes with a name", "a abc", "ab", "c"),
        ("with a literal name", "/a abc", "ab", "c"),
        ("with a bracket", "] abc", "ab", "c"),
        ("with two greater-than signs", ">> abc", "ab", "c"),
        ("none goes with a string", "(a) ab", " a", "b"),
        ("none goes with a brace", "{ ab", " a", "b"),
        ("fewer bytes than asked", "1 a", "a", ""),
        ("none at the end", "1", "", ""),
    ];
    for (name, program, taken, left) in cases {
        assert!(rt; takes(rt.alloc(), program, taken, left)?, "{name}");
    }
    Ok(())
}

/// Whether the digits behind the first token give these bytes, two at most, and these are left.
fn takes_hex(alloc: Global, program: &str, taken: &str, left: &str) -> Result<bool, Fail> {
    let mut scanner = Scanner::new(program.as_bytes().to_vec(alloc)?);
    let _ = scanner.next(alloc);
    let mut into = [0u8; 2];
    let count = scanner.take_hex(into.as_mut_slice());
    let front = into.iter().take(count);
    Ok(front.eq(taken.as_bytes().iter()) && scanner.rest() == left.as_bytes())
}

#[test]
fn hexadecimal_digits_are_taken_in_pairs(rt: HostRuntime) -> Result<(), Fail> {
    let cases = [
        (
            "two bytes, with others between",
            "1 4 8x6\n5:6C",
            "He",
            ":6C",
        ),
        ("right behind the last digit", "1 48656C", "He", "6C"),
        ("half a pair at the end is dropped", "1 486", "H", ""),
        ("fewer digits than asked", "1 48>", "H", ""),
        ("no digits", "1 xyz", "", ""),
    ];
    for (name, program, taken, left) in cases {
        assert!(rt; takes_hex(rt.alloc(), program, taken, left)?, "{name}");
    }
    Ok(())
}

#[test]
fn a_string_gives_its_bytes_away(rt: HostRuntime) -> Result<(), Fail> {
    let mut bytes = TokenBytes::new(rt.alloc());
    bytes.push(7)?;
    assert_eq!(rt; bytes.items().len(), 1);
    assert_eq!(rt; bytes.into_vec().as_slice(), [7].as_slice());
    Ok(())
}
