//! A call of `run` over memory.
use mm_port::{MemSink, MemSource};
use mm_run::{Status, run};
use std::process::Abort;
use std::test::Fail;

/// How many bytes a read gives and a write takes at most.
const PIECE: usize = 1 << 20;

/// Asserts that the words, parted by blanks, on the input give the status and the output.
pub fn expect(
    rt: &(impl Abort + AllocGlobal),
    words: &str,
    input: &[u8],
    status: Status,
    output: &str,
) -> Result<(), Fail> {
    let alloc = rt.alloc();
    let mut list = Vec::new(alloc);
    for word in words.split_whitespace() {
        list.push(String::from_str(alloc, word)?)?;
    }
    let mut source = MemSource::new(input.to_vec(alloc)?, PIECE, Vec::new(alloc));
    let mut sink = MemSink::new(alloc, PIECE, PIECE, Vec::new(alloc))
        .ok()
        .ok_or("no memory")?;
    assert_eq!(rt;
        run(alloc, &list, &mut source, &mut sink),
        status,
        "{words}"
    );
    assert_eq!(rt; sink.taken(), output.as_bytes(), "{words}");
    Ok(())
}
