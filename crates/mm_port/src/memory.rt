ghost use Rattle.std.specs.Prelude.{◌≡◌, ◌+◌, ◌-◌, ◌≤◌, ◌<◌, ◌↔◌, ◌⊎◌, [], ◌++◌, List, ℕ, length, take, drop, min, Contains, IsErr, IfOk, OnOk, OnErr, Some};
ghost use Rattle.std.specs.Io.{ReadsAtMost};
ghost use Rattle.std.specs.Io.KnownBytes.{ReadConsumes, WriteAppends};
ghost use Rattle.mm_port.specs.Port.{HasCause, TakesSome, one_more};

use crate::port::{Failed, NoMemory, Sink, Source, count_fault};
use std::alloc::Global;
use std::marker::Model;

/// A source over bytes in memory, which fails at chosen calls.
#[derive(Drop)]
pub struct MemSource {
    bytes: Vec<u8>,
    at: usize,
    piece: usize,
    fails: Vec<u64>,
    calls: u64,
    faults: u64,
}

impl Model for MemSource {
    ghost use Rattle.mm_port.specs.Memory.{Reading};
    ghost use Rattle.std.specs.Prelude.{◌≤◌, ◌<◌, ◌^◌, drop, length, ℕ, List};

    ghost Value = { Reading };

    ghost view = { λ s. record { left = drop s.at s.bytes.items; piece = s.piece; fails = s.fails.items; calls = s.calls; faults = s.faults } };

    ghost invariant = { λ s. (s.at ≤ length s.bytes.items) × (1 ≤ s.piece) };
}

impl MemSource {
    ghost use Rattle.mm_port.specs.Memory.{Reading};

    /// A source of these bytes. It gives at most `piece` of them in one call, and fails at the calls, numbered
    /// from 1, that `fails` lists. The number of a call stays at 2^64 - 1 once it is there.
    pub fn new(bytes: Vec<u8>, piece: usize, fails: Vec<u64>) -> MemSource
        requires { 1 ≤ piece }
        ensures { result ≡ record { left = bytes.items; piece = piece; fails = fails.items; calls = 0; faults = 0 } }
    {
        MemSource {
            bytes,
            at: 0,
            piece,
            fails,
            calls: 0,
            faults: 0,
        }
    }
}

// Copies as many bytes to the front of `out` as there are, as `out` has room for and as `piece` allows.
fn copy_front(bytes: &[u8], piece: usize, out: &mut [u8]) -> usize
    ensures count { result ≡ min (min piece (length out.old)) (length bytes.now) }
    ensures front { bytes.now ≡ take result out.new ++ drop result bytes.now }
    ensures rest { drop result out.new ≡ drop result out.old }
{
    let count = piece.min(out.len()).min(bytes.len());
    out[..count].copy_from_slice(&bytes[..count]);
    count
}

impl Source for MemSource {
    ghost use Rattle.std.specs.Prelude.{Some};

    ghost left = { λ s. Some s.left };

    ghost faults = { λ s. s.faults };

    fn read(&mut self, out: &mut [u8]) -> Result<usize, Failed>
        ensures bound { ReadsAtMost result out.new }
        ensures bytes { ReadConsumes (Some self.old.left) (Some self.new.left) result out.new }
        ensures cause { HasCause self.old.faults self.new.faults result }

        ensures fails { IsErr result ↔ Contains self.old.fails (one_more self.old.calls) }
        ensures gives { IfOk result (λ n. n ≡ min (min self.old.piece (length out.old)) (length self.old.left)) }
        ensures ok { IfOk result (λ n. self.new
            ≡ record self.old { left = drop n self.old.left; calls = one_more self.old.calls }) }
        ensures err { OnErr result (self.new
            ≡ record self.old { calls = one_more self.old.calls; faults = one_more self.old.faults }) }

        // What stands in `out` behind the bytes that are given stays.
        ensures rest { IfOk result (λ n. drop n out.new ≡ drop n out.old) }
        ensures untouched { OnErr result (out.new ≡ out.old) }
    {
        self.calls = self.calls.saturating_add(1);
        if self.fails.contains(&self.calls) {
            return Err(count_fault(&mut self.faults));
        }
        let count = copy_front(&self.bytes[self.at..], self.piece, out);
        self.at += count;
        Ok(count)
    }
}

/// A sink into memory that is reserved once, which fails at chosen calls.
#[derive(Drop)]
pub struct MemSink {
    taken: Vec<u8>,
    room: usize,
    piece: usize,
    fails: Vec<u64>,
    calls: u64,
    faults: u64,
}

impl Model for MemSink {
    ghost use Rattle.mm_port.specs.Memory.{Writing};
    ghost use Rattle.std.specs.Prelude.{◌≤◌, length, ℕ, List, vec_capacity};

    ghost Value = { Writing };

    ghost view = { λ s. record { taken = s.taken.items; room = s.room; piece = s.piece; fails = s.fails.items; calls = s.calls; faults = s.faults } };

    ghost invariant = { λ s. (length s.taken.items ≤ s.room) × (s.room ≤ vec_capacity s.taken) × (1 ≤ s.piece) };
}

impl MemSink {
    ghost use Rattle.mm_port.specs.Memory.{Writing};

    /// A sink with room for `room` bytes, which are reserved here. It takes at most `piece` of them in one call, and
    /// fails where the room is full and at the calls, numbered from 1, that `fails` lists. The number of a call stays
    /// at 2^64 - 1 once it is there.
    pub fn new(
        alloc: Global,
        room: usize,
        piece: usize,
        fails: Vec<u64>,
    ) -> Result<MemSink, NoMemory>
        requires { 1 ≤ piece }
        ensures { IfOk result (λ s. s
            ≡ record { taken = []; room = room; piece = piece; fails = fails.items; calls = 0; faults = 0 }) }
    {
        let taken = Vec::with_capacity(alloc, room).map_err(|_| NoMemory)?;
        Ok(MemSink {
            taken,
            room,
            piece,
            fails,
            calls: 0,
            faults: 0,
        })
    }

    /// The bytes that it has taken.
    pub fn taken(&self) -> &[u8]
        ensures { result.now ≡ self.now.taken }
    {
        &self.taken
    }
}

impl Sink for MemSink {
    ghost use Rattle.std.specs.Prelude.{Some};

    ghost taken = { λ s. Some s.taken };

    ghost faults = { λ s. s.faults };

    fn write(&mut self, piece: &[u8]) -> Result<usize, Failed>
        requires { 0 < length piece.now }
        ensures bound { TakesSome result piece.now }
        ensures bytes { WriteAppends (Some self.old.taken) (Some self.new.taken) result piece.now }
        ensures cause { HasCause self.old.faults self.new.faults result }

        ensures fails { IsErr result
            ↔ (Contains self.old.fails (one_more self.old.calls) ⊎ (length self.old.taken ≡ self.old.room)) }
        ensures takes { IfOk result (λ n. n
            ≡ min (min self.old.piece (length piece.now)) (self.old.room - length self.old.taken)) }
        ensures ok { IfOk result (λ n. self.new
            ≡ record self.old { taken = self.old.taken ++ take n piece.now; calls = one_more self.old.calls }) }
        ensures err { OnErr result (self.new
            ≡ record self.old { calls = one_more self.old.calls; faults = one_more self.old.faults }) }
    {
        self.calls = self.calls.saturating_add(1);
        let left = self.room - self.taken.len();
        if left == 0 || self.fails.contains(&self.calls) {
            return Err(count_fault(&mut self.faults));
        }
        let count = self.piece.min(piece.len()).min(left);
        self.taken.extend_from_slice(&piece[..count]).unwrap();
        Ok(count)
    }
}
