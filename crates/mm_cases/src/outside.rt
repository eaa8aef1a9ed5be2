//! A call of `run` over memory.
use mm_port::{MemSink, MemSource};
use mm_run::run;
use std::alloc::{AllocError, Global};
use std::fmt;

/// A read or a write, numbered from 1.
#[derive(Clone, Copy)]
pub enum Call {
    Read(u64),
    Write(u64),
}

/// How the input and the output come: in pieces of this many bytes, at least one, and which call fails.
#[derive(Clone, Copy)]
pub struct Outside {
    pub piece: usize,
    pub fails: Option<Call>,
}

// The most bytes of an output: one that is longer differs by status 8.
const ROOM: usize = 1 << 20;

/// No fault, in long pieces.
pub const CALM: Outside = Outside {
    piece: 1 << 20,
    fails: None,
};

impl fmt::Display for Outside {
    fn fmt<W: fmt::Write>(&self, f: &mut fmt::Formatter<W>) -> fmt::Result {
        match self.fails {
            Some(Call::Read(call)) => write!(f, " where read {call} fails"),
            Some(Call::Write(call)) => write!(f, " where write {call} fails"),
            None => Ok(()),
        }
    }
}

impl Outside {
    fn failing_reads(self, alloc: Global) -> Result<Vec<u64>, AllocError> {
        match self.fails {
            Some(Call::Read(call)) => Ok(vec![in alloc; call]?),
            _ => Ok(Vec::new(alloc)),
        }
    }

    fn failing_writes(self, alloc: Global) -> Result<Vec<u64>, AllocError> {
        match self.fails {
            Some(Call::Write(call)) => Ok(vec![in alloc; call]?),
            _ => Ok(Vec::new(alloc)),
        }
    }
}

/// A status, and what was written.
#[derive(Drop)]
pub struct Answer {
    pub status: u8,
    pub output: Vec<u8>,
}

/// What `run` gives on the words and the input.
pub fn answer_of(
    alloc: Global,
    words: &[String],
    input: &[u8],
    outside: Outside,
) -> Result<Answer, AllocError> {
    let piece = outside.piece.max(1);
    let bytes = input.to_vec(alloc)?;
    let mut source = MemSource::new(bytes, piece, outside.failing_reads(alloc)?);
    let mut sink = MemSink::new(alloc, ROOM, piece, outside.failing_writes(alloc)?).map_err(
        |_| AllocError,
    )?;
    let status = run(alloc, words, &mut source, &mut sink);
    Ok(Answer {
        status: status.number(),
        output: sink.taken().to_vec(alloc)?,
    })
}
