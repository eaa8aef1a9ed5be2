//! A case, as its lines build it.
use crate::fault::LineFault;
use crate::outside::{CALM, Call, Outside};
use crate::text::Text;
use std::alloc::Global;

/// Words and inputs, how these come, and what each of the inputs must give.
#[derive(Drop)]
pub struct Case {
    alloc: Global,
    pub words: Option<Vec<String>>,
    pub inputs: Vec<Text>,
    pub outside: Outside,
    /// Whether also each call is to fail, in a run of its own.
    pub each_call: bool,
    pub status: Option<u8>,
    pub output: Text,
}

fn number(word: &str) -> Result<u64, LineFault> {
    word.parse().map_err(|_| LineFault::NoForm)
}

impl Case {
    // A case with one empty input, of which nothing is wanted yet.
    fn new(alloc: Global) -> Result<Case, LineFault> {
        Ok(Case {
            alloc,
            words: None,
            inputs: vec![in alloc; Text::new(alloc)]?,
            outside: CALM,
            each_call: false,
            status: None,
            output: Text::new(alloc),
        })
    }

    fn set_words(&mut self, line: &str) -> Result<(), LineFault> {
        let mut words = Vec::new(self.alloc);
        for word in line.split_whitespace() {
            words.push(String::from_str(self.alloc, word)?)?;
        }
        match self.words.replace(words) {
            None => Ok(()),
            Some(_) => Err(LineFault::NoForm),
        }
    }

    fn set_outside(&mut self, line: &str) -> Result<(), LineFault> {
        let words: Vec<&str> = line.split_whitespace().collect(self.alloc)?;
        match words.as_slice() {
            ["pieces", "of", size] => self.outside.piece = number(size)? as usize,
            ["read", call, "fails"] => self.outside.fails = Some(Call::Read(number(call)?)),
            ["write", call, "fails"] => self.outside.fails = Some(Call::Write(number(call)?)),
            ["each", "call", "fails"] => self.each_call = true,
            _ => return Err(LineFault::NoForm),
        }
        Ok(())
    }

    fn set_status(&mut self, line: &str) -> Result<(), LineFault> {
        let status = line.trim().parse().map_err(|_| LineFault::NoForm)?;
        match self.status.replace(status) {
            None => Ok(()),
            Some(_) => Err(LineFault::NoForm),
        }
    }

    fn add_input(&mut self, line: &str) -> Result<(), LineFault> {
        let input = self.inputs.last_mut().ok_or(LineFault::NoForm)?;
        input.add(line)
    }

    // Adds what the line says.
    fn add(&mut self, line: &str) -> Result<(), LineFault> {
        let Some((mark, rest)) = line.split_at_checked(1) else {
            return Ok(());
        };
        match mark {
            "#" => Ok(()),
            "$" => self.set_words(rest),
            "!" => self.set_outside(rest),
            "<" => self.add_input(rest),
            "|" => {
                self.inputs.push(Text::new(self.alloc))?;
                self.add_input(rest)
            }
            "=" => self.set_status(rest),
            ">" => self.output.add(rest),
            _ => Err(LineFault::NoForm),
        }
    }

    /// The case that the lines make.
    pub fn read(alloc: Global, lines: &str) -> Result<Case, LineFault> {
        let mut case = Case::new(alloc)?;
        for line in lines.lines() {
            case.add(line)?;
        }
        if case.output.is_whole() && case.inputs.iter().all(|input| input.is_whole()) {
            Ok(case)
        } else {
            Err(LineFault::NoForm)
        }
    }
}
