//! Tokens of whole texts.
ghost use Rattle.std.specs.Prelude.{◌≤◌, length, IfOk};

use mm_goto::At;
use mm_lexer::{LexFault, Token, TokenKind, lex};

const NAME: TokenKind = TokenKind::Name;

const TEXT: TokenKind = TokenKind::Text;

const MARK: TokenKind = TokenKind::Mark;

fn number(value: i32) -> TokenKind {
    TokenKind::Number(value)
}

fn lexed(rt: &impl AllocGlobal, text: &str) -> Result<Vec<Token>, LexFault> {
    if text.len() > 16_777_216 {
        return Err(LexFault::NoMemory);
    }
    lex(rt.alloc(), text)
}

#[test]
fn cuts_tokens(rt: HostRuntime) {
    let table: [(&str, &[TokenKind]); 22] = [
        ("", &[]),
        ("int x;", &[NAME, NAME, MARK]),
        ("a\tb\r\nc", &[NAME, NAME, NAME]),
        ("a//b*/\nc", &[NAME, NAME]),
        ("a//b", &[NAME]),
        ("a/*b\n\"#*/c/**/", &[NAME, NAME]),
        ("#include <a>\nx", &[NAME]),
        (" \t# \tinclude<\"@/*>\r\nx", &[NAME]),
        ("#include_next <a>\n#includeX\n#include", &[]),
        ("_a1 αβ2 é_", &[NAME, NAME, NAME]),
        ("0 00 7 010", &[number(0), number(0), number(7), number(8)]),
        ("0x1F 0XfF", &[number(31), number(255)]),
        ("2147483647", &[number(i32::MAX)]),
        (
            "017777777777 0x7fffffff",
            &[number(i32::MAX), number(i32::MAX)],
        ),
        ("1.5", &[number(1), MARK, number(5)]),
        ("\"\" \"a b'!~#/*\"", &[TEXT, TEXT]),
        ("a<<=b<<<=c", &[NAME, MARK, NAME, MARK, MARK, NAME]),
        (">>=>>>=>", &[MARK, MARK, MARK, MARK]),
        ("a+++b--->c", &[NAME, MARK, MARK, NAME, MARK, MARK, NAME]),
        ("+= -= *= /= %= &= |= ^= != <= >=", &[MARK; 11]),
        ("++ -- && || == << >> ->", &[MARK; 8]),
        ("+ - * / % & | ^ ~ ! < > =?:;,()[]{}.", &[MARK; 24]),
    ];
    for (text, kinds) in table {
        match lexed(&rt, text) {
            Ok(tokens) => {
                assert_eq!(rt; tokens.len(), kinds.len(), "{text}");
                for (token, kind) in tokens.iter().zip(kinds) {
                    assert_eq!(rt; token.kind, *kind, "{text}");
                }
            }
            Err(fault) => panic!(rt; "{text}: {fault:?}"),
        }
    }
}

#[test]
fn tokens_have_their_places(rt: HostRuntime) {
    let at = |line, column| At { line, column };
    let want = [
        Token {
            kind: NAME,
            start: 0,
            end: 4,
            at: at(1, 1),
        },
        Token {
            kind: MARK,
            start: 5,
            end: 8,
            at: at(1, 4),
        },
        Token {
            kind: number(12),
            start: 9,
            end: 11,
            at: at(1, 8),
        },
        Token {
            kind: TEXT,
            start: 13,
            end: 16,
            at: at(2, 2),
        },
    ];
    match lexed(&rt, "αβ <<= 12\n \"x\"") {
        Ok(tokens) => assert!(rt; tokens.as_slice() == want.as_slice()),
        Err(fault) => panic!(rt; "{fault:?}"),
    }
}
