//! Inputs that are too long for a case.
use crate::outside::expect;
use mm_run::Status;
use std::test::Fail;

const TSO_1: &str = "instrument --mm tso --bound 1";

// A text so many times over, put behind another.
fn repeat(text: &mut String, part: &str, count: usize) -> Result<(), Fail> {
    for _ in 0..count {
        text.push_str(part)?;
    }
    Ok(())
}

#[test]
fn one_line_may_be_as_long_as_an_input(rt: HostRuntime) -> Result<(), Fail> {
    let mut comment = String::from_str(rt.alloc(), "/*")?;
    repeat(&mut comment, "0123456789abcdef", 1_048_575)?;
    repeat(&mut comment, " ", 12)?;
    comment.push_str("*/")?;
    let line = "refused: 1:1 no main\n";
    expect(&rt, TSO_1, comment.as_bytes(), Status::Refused, line)?;
    comment.push_str(" ")?;
    let line = "too long\n";
    expect(&rt, TSO_1, comment.as_bytes(), Status::TooLong, line)
}

#[test]
fn a_million_brackets_are_too_deep(rt: HostRuntime) -> Result<(), Fail> {
    let mut open = String::new(rt.alloc());
    repeat(&mut open, "(", 1_000_000)?;
    let line = "refused: 1:201 too deep\n";
    expect(&rt, TSO_1, open.as_bytes(), Status::Refused, line)
}

#[test]
fn an_input_that_is_too_long_is_refused(rt: HostRuntime) -> Result<(), Fail> {
    let blanks = vec![in rt.alloc(); b' '; 16_777_217]?;
    expect(&rt, TSO_1, &blanks, Status::TooLong, "too long\n")?;
    let line = "refused: 1:1 no main\n";
    expect(&rt, TSO_1, &blanks[1..], Status::Refused, line)
}
