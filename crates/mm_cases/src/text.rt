//! An input or an output, as the lines of a case write it.
ghost use Rattle.std.specs.Prelude.{◌≡◌, ◌<◌, ◌↔◌, [], IsNone, IsTrue, IfOk, None};

use crate::fault::LineFault;
use std::alloc::Global;

/// The bytes that some lines write.
#[derive(Drop)]
pub struct Text {
    alloc: Global,
    bytes: Vec<u8>,
    /// Where a part begins that comes more than once.
    part: Option<usize>,
}

/// What was read of an escape.
#[derive(Clone, Copy)]
enum Escape {
    Nothing,
    Backslash,
    Byte,
    HighDigit(u8),
}

// The byte that a letter behind a backslash is.
fn named(letter: u8) -> Result<u8, LineFault> {
    match letter {
        b'n' => Ok(b'\n'),
        b'r' => Ok(b'\r'),
        b't' => Ok(b'\t'),
        b'0' => Ok(b'\0'),
        b'\\' => Ok(b'\\'),
        _ => Err(LineFault::NoForm),
    }
}

fn digit(letter: u8) -> Result<u8, LineFault>
    ensures { IfOk result (λ value. value < 16) }
{
    match letter {
        b'0'..=b'9' => Ok(letter - b'0'),
        b'a'..=b'f' => Ok(letter - b'a' + 10),
        _ => Err(LineFault::NoForm),
    }
}

// How often a part comes, at least once.
fn count(word: &str) -> Result<u32, LineFault>
    ensures { IfOk result (λ times. 0 < times) }
{
    match word.parse::<u32>() {
        Ok(times) if times > 0 => Ok(times),
        _ => Err(LineFault::NoForm),
    }
}

// What stands between quotes.
fn unquoted(text: &str) -> Result<&str, LineFault> {
    text.strip_prefix("\"")
        .and_then(|rest| rest.strip_suffix("\""))
        .ok_or(LineFault::NoForm)
}

impl Text {
    pub fn new(alloc: Global) -> Text
        ensures bytes { result.bytes.items ≡ [] }
        ensures part { result.part ≡ None }
    {
        Text {
            alloc,
            bytes: Vec::new(alloc),
            part: None,
        }
    }

    pub fn bytes(&self) -> &[u8]
        ensures { result.now ≡ self.now.bytes.items }
    {
        &self.bytes
    }

    /// Whether each part that comes more than once has its end.
    pub fn is_whole(&self) -> bool
        ensures { IsTrue result ↔ IsNone self.now.part }
    {
        self.part.is_none()
    }

    fn push(&mut self, byte: u8) -> Result<Escape, LineFault> {
        self.bytes.push(byte)?;
        Ok(Escape::Nothing)
    }

    fn push_number(&mut self, number: u32) -> Result<Escape, LineFault> {
        let digits = format!(in self.alloc; "{number}")?;
        self.bytes.extend_from_slice(digits.as_bytes())?;
        Ok(Escape::Nothing)
    }

    fn take(&mut self, escape: Escape, byte: u8, number: u32) -> Result<Escape, LineFault> {
        match escape {
            Escape::Nothing if byte == b'\\' => Ok(Escape::Backslash),
            Escape::Nothing => self.push(byte),
            Escape::Backslash if byte == b'x' => Ok(Escape::Byte),
            Escape::Backslash if byte == b'#' => self.push_number(number),
            Escape::Backslash => self.push(named(byte)?),
            Escape::Byte => Ok(Escape::HighDigit(digit(byte)?)),
            Escape::HighDigit(high) => self.push(high << 4 | digit(byte)?),
        }
    }

    // Adds what stands between the quotes, with this number for each `\#`.
    fn add_quoted(&mut self, quoted: &str, number: u32) -> Result<(), LineFault> {
        let mut escape = Escape::Nothing;
        for byte in unquoted(quoted)?.as_bytes() {
            escape = self.take(escape, *byte, number)?;
        }
        match escape {
            Escape::Nothing => Ok(()),
            _ => Err(LineFault::NoForm),
        }
    }

    fn add_repeated(&mut self, line: &str) -> Result<(), LineFault> {
        let (times, quoted) = line.split_once(' ').ok_or(LineFault::NoForm)?;
        for number in 0..count(times)? {
            self.add_quoted(quoted, number)?;
        }
        Ok(())
    }

    fn add_line(&mut self, line: &str) -> Result<(), LineFault> {
        self.bytes.extend_from_slice(line.as_bytes())?;
        self.bytes.push(b'\n')?;
        Ok(())
    }

    fn begin_part(&mut self) -> Result<(), LineFault> {
        if self.part.is_some() {
            return Err(LineFault::NoForm);
        }
        self.part = Some(self.bytes.len());
        Ok(())
    }

    // Ends the part that comes so many times.
    fn end_part(&mut self, times: u32) -> Result<(), LineFault> {
        let start = self.part.take().ok_or(LineFault::NoForm)?;
        let part = self.bytes.get(start..).ok_or(LineFault::NoForm)?;
        let part = part.to_vec(self.alloc)?;
        for _ in 1..times {
            self.bytes.extend_from_slice(&part)?;
        }
        Ok(())
    }

    /// Adds what a line says behind the mark of an input or an output.
    pub fn add(&mut self, line: &str) -> Result<(), LineFault> {
        let Some((form, rest)) = line.split_at_checked(1) else {
            return self.add_line(line);
        };
        match form {
            " " => self.add_line(rest),
            "\"" => self.add_quoted(line, 0),
            "*" => self.add_repeated(rest),
            "[" => self.begin_part(),
            "]" => self.end_part(count(rest)?),
            _ => Err(LineFault::NoForm),
        }
    }
}
