//! Names and types of outputs, which no command reads.
use mm_goto::{At, NoMemory};
use mm_lexer::{LexFault, lex};
use mm_names::{NameFault, check};
use mm_parse::{ParseFault, parse};
use mm_tree::Side;
use std::alloc::{AllocError, Global};

#[derive(Debug, Drop)]
enum Fail {
    Lexed(LexFault),
    Parsed(ParseFault),
    NoRow,
    NoMemory,
}

impl From<LexFault> for Fail {
    fn from(fault: LexFault) -> Fail {
        Fail::Lexed(fault)
    }
}

impl From<ParseFault> for Fail {
    fn from(fault: ParseFault) -> Fail {
        Fail::Parsed(fault)
    }
}

impl From<NoMemory> for Fail {
    fn from(_: NoMemory) -> Fail {
        Fail::NoMemory
    }
}

impl From<AllocError> for Fail {
    fn from(_: AllocError) -> Fail {
        Fail::NoMemory
    }
}

/// Outputs that make no sense, each behind the place and the words of its refusal.
const REFUSED: &str = "1:23 declared twice | int main(void) { a: ; a: return 0; }
1:25 declared twice | int main(void) { a: ; { a: ; } return 0; }
1:5 unknown name | int wm_a(); int main(void) { return 0; }
1:23 unknown name | int main(void) { goto b; a: return 0; }
1:45 unknown name | void f(void) { a: ; } int main(void) { goto a; return 0; }
1:18 wrong type | int main(void) { assert(1); return 0; }
1:18 wrong type | int main(void) { __CPROVER_assert(1, \"assertion 01\"); return 0; }
1:18 wrong type | int main(void) { __CPROVER_assert(1, \"assertion 4294967296\"); return 0; }
1:18 wrong type | int main(void) { __CPROVER_assert(1, \"assertion\"); return 0; }
1:18 wrong type | int main(void) { __CPROVER_assert(1, \"assertion \"); return 0; }
1:18 wrong type | int main(void) { __CPROVER_assert(1, \"assertion +1\"); return 0; }
1:18 wrong type | int main(void) { __CPROVER_assert(1, \"assertion  1\"); return 0; }
1:18 wrong type | int main(void) { __CPROVER_assert(1, \"assertion 1 \"); return 0; }
1:18 wrong type | int main(void) { __CPROVER_assert(1, \"Assertion 1\"); return 0; }
1:18 wrong type | int main(void) { __CPROVER_assert(1, \"assertion 1x\"); return 0; }
1:18 wrong type | int main(void) { __CPROVER_assert(1, \"\"); return 0; }
1:72 bad thread | void *p(void *q) { return 0; } int main(void) { pthread_t t; a: if (1) pthread_create(&t, 0, p, 0); return 0; }
1:23 unknown name | int main(void) { goto b; z = 1; return 0; }
1:18 unknown name | int main(void) { z = 1; goto b; return 0; }
1:1 no main | int x;
1:1 no main | void main(void) { }
1:1 no main | int main(int a) { return a; }
1:5 reserved name | int nondet_x; int main(void) { return 0; }
1:9 reserved name | int a, *nondet_p; int main(void) { return 0; }
1:22 reserved name | int main(void) { int nondet_a; return 0; }
1:12 declared twice | int x; int x; int main(void) { return 0; }
1:8 declared twice | int x, x; int main(void) { return 0; }
1:13 declared twice | int x; void x(void) { } int main(void) { return 0; }
1:18 unknown name | int main(void) { z = 1; }
1:26 unknown name | int main(void) { int x = x; return 0; }
1:33 unknown name | int x; int main(void) { int x = x; return 0; }
1:29 wrong type | int x; int main(void) { x = &x; return 0; }
1:37 wrong type | int x; int *p; int main(void) { x = p; return 0; }
1:37 wrong type | int x; int *p; int main(void) { p = x; return 0; }
1:71 bad thread | void *p(void *q) { return 0; } int main(void) { pthread_t t; if (1) { pthread_create(&t, 0, p, 0); } return 0; }
1:64 bad thread | void *p(void *q) { return 0; } int main(void) { pthread_t t; { pthread_create(&t, 0, p, 0); } return 0; }
1:72 bad thread | void *p(void *q) { return 0; } int main(void) { pthread_t t; while (1) pthread_create(&t, 0, p, 0); return 0; }
1:16 recursion | void f(void) { f(); } int main(void) { f(); return 0; }
1:16 recursion | void f(void) { f(); } int main(void) { return 0; }
1:16 recursion | void g(void) { f(); } void f(void) { g(); } int main(void) { f(); return 0; }
";

/// Outputs that make sense.
const ACCEPTED: &str =
    "int main(void) { __CPROVER_assert(1, \"assertion 0\"); __CPROVER_assert(1, \"assertion 4294967295\"); __CPROVER_assert(1, \"assertion 7\"); return 0; }
int main(void) { goto b; a: goto c; b: goto a; c: return 0; }
void f(void) { a: goto a; } int main(void) { a: return 0; }
int a; int main(void) { a: a = 1; return 0; }
void *p(void *q) { return 0; } int main(void) { pthread_t t; wm_0: pthread_create(&t, 0, p, 0); wm_1: pthread_join(t, 0); return 0; }
int wm_mem[2]; int main(void) { int wm_r0; __CPROVER_atomic_begin(); wm_r0 = wm_mem[0]; __CPROVER_atomic_end(); return 0; }
int main(void) { { a: ; } while (0) { goto a; } return 0; }
";

/// The place and the words of a refusal.
fn words_of(fault: NameFault) -> Result<(At, &'static str), Fail> {
    match fault {
        NameFault::NoMain(at) => Ok((at, "no main")),
        NameFault::ReservedName(at) => Ok((at, "reserved name")),
        NameFault::OutputOnly(at) => Ok((at, "output only")),
        NameFault::TwiceDeclared(at) => Ok((at, "declared twice")),
        NameFault::UnknownName(at) => Ok((at, "unknown name")),
        NameFault::WrongType(at) => Ok((at, "wrong type")),
        NameFault::BadThread(at) => Ok((at, "bad thread")),
        NameFault::Recursion(at) => Ok((at, "recursion")),
        NameFault::NoMemory => Err(Fail::NoMemory),
    }
}

/// The fault of an output, where it has one.
fn fault_of(alloc: Global, text: &str) -> Result<Option<NameFault>, Fail> {
    if text.len() > 16_777_216 {
        return Err(Fail::NoRow);
    }
    let tokens = lex(alloc, text)?;
    let tree = parse(alloc, text, &tokens, Side::Output)?;
    match check(alloc, &tree, Side::Output) {
        Ok(_) => Ok(None),
        Err(fault) => Ok(Some(fault)),
    }
}

#[test]
fn an_output_is_refused_at_its_least_fault(rt: HostRuntime) -> Result<(), Fail> {
    let alloc = rt.alloc();
    for row in REFUSED.lines() {
        let (wanted, text) = row.split_once(" | ").ok_or(Fail::NoRow)?;
        let fault = fault_of(alloc, text)?.ok_or(Fail::NoRow)?;
        let (at, words) = words_of(fault)?;
        let told = format!(in alloc; "{}:{} {words}", at.line, at.column)?;
        assert_eq!(rt; told.as_str(), wanted, "{text}");
    }
    Ok(())
}

#[test]
fn an_output_may_have_what_a_source_may_not(rt: HostRuntime) -> Result<(), Fail> {
    for text in ACCEPTED.lines() {
        assert!(rt; fault_of(rt.alloc(), text)?.is_none(), "{text}");
    }
    Ok(())
}
