use mm_goto::NoMemory;
use mm_lexer::LexFault;
use mm_parse::ParseFault;
use std::alloc::{AllocError, AllocFailed};

/// Why a text is not printed again.
#[derive(Debug, Drop)]
pub enum TextFault {
    TooLong,
    /// Its first lines are not those of a woven text.
    NoHead,
    Lexed(LexFault),
    Parsed(ParseFault),
    NoMemory,
}

impl From<LexFault> for TextFault {
    fn from(fault: LexFault) -> TextFault {
        TextFault::Lexed(fault)
    }
}

impl From<ParseFault> for TextFault {
    fn from(fault: ParseFault) -> TextFault {
        TextFault::Parsed(fault)
    }
}

impl From<NoMemory> for TextFault {
    fn from(_: NoMemory) -> TextFault {
        TextFault::NoMemory
    }
}

impl From<AllocError> for TextFault {
    fn from(_: AllocError) -> TextFault {
        TextFault::NoMemory
    }
}

impl<T: Drop> From<AllocFailed<T>> for TextFault {
    fn from(_: AllocFailed<T>) -> TextFault {
        TextFault::NoMemory
    }
}
