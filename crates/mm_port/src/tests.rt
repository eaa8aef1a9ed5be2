ghost use Rattle.std.specs.Prelude.{◌≡◌, IfOk};

use crate::{Failed, MemSink, MemSource, Sink, Source, StdSink, StdSource};
use std::io::{self, ErrorKind, Read};
use std::test::Fail;

#[test]
fn memory_source_gives_pieces_and_fails_at_its_calls(rt: HostRuntime) -> Result<(), Fail> {
    let bytes = b"abcde".to_vec(rt.alloc())?;
    let fails = [2].to_vec(rt.alloc())?;
    let mut source = MemSource::new(bytes, 2, fails);
    let mut out = [0u8; 3];
    assert_eq!(rt; source.read(&mut out), Ok(2));
    assert_eq!(rt; out, *b"ab\0");
    assert_eq!(rt; source.read(&mut out), Err(Failed));
    assert_eq!(rt; source.read(&mut out), Ok(2));
    assert_eq!(rt; out, *b"cd\0");
    assert_eq!(rt; source.read(&mut out), Ok(1));
    assert_eq!(rt; out, *b"ed\0");
    assert_eq!(rt; source.read(&mut out), Ok(0));
    Ok(())
}

#[test]
fn memory_sink_takes_pieces_up_to_its_room(rt: HostRuntime) -> Result<(), Fail> {
    let fails = [2].to_vec(rt.alloc())?;
    let mut sink = MemSink::new(rt.alloc(), 3, 2, fails)
        .ok()
        .ok_or("no memory")?;
    assert_eq!(rt; sink.write(b"abc"), Ok(2));
    assert_eq!(rt; sink.write(b"cde"), Err(Failed));
    assert_eq!(rt; sink.write(b"cde"), Ok(1));
    assert_eq!(rt; sink.write(b"de"), Err(Failed));
    assert_eq!(rt; sink.taken(), b"abc".as_slice());
    Ok(())
}

#[test]
fn standard_input_is_read(rt: HostRuntime) {
    let mut source = StdSource::new(rt.stdin());
    let mut out = [0u8; 16];
    assert!(rt; source.read(&mut out).is_ok());
}

#[test]
fn standard_output_is_written(rt: HostRuntime) {
    let mut sink = StdSink::new(io::writer(&rt));
    assert_eq!(rt; sink.write(b"x"), Ok(1));
}

/// What fails at its first call alone.
#[derive(Drop)]
struct Shaky {
    has_failed: bool,
}

impl Shaky {
    fn call(&mut self) -> io::Result<usize>
        ensures { IfOk result (λ n. n ≡ 0) }
    {
        if self.has_failed {
            return Ok(0);
        }
        self.has_failed = true;
        Err(io::Error::from(ErrorKind::Other))
    }
}

impl Read for Shaky {
    fn read(&mut self, _out: &mut [u8]) -> io::Result<usize> {
        self.call()
    }
}

#[test]
fn each_error_of_a_reader_is_told(rt: HostRuntime) {
    let mut source = StdSource::new(Shaky { has_failed: false });
    let mut out = [0u8; 2];
    assert_eq!(rt; source.read(&mut out), Err(Failed));
    assert_eq!(rt; source.read(&mut out), Ok(0));
}
