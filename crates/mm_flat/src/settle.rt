//! The places of labels.
ghost use Rattle.std.specs.Prelude.{◌≡◌, ◌++◌, map, IfOk};
ghost use Rattle.mm_flow.specs.reading.Settling.{piece_place, place_at, settled, settled_thread};

use mm_flow::assembler::{Assembler, Piece};
use mm_goto::{At, Instr, List, NoMemory, Thread};
use std::alloc::Global;

fn place_at(marks: &[u32], label: u32) -> u32
    ensures { result ≡ place_at marks.now label }
{
    marks.get(label as usize).copied().unwrap_or(0)
}

fn settled(marks: &[u32], piece: Piece) -> Instr
    ensures { result ≡ settled marks.now piece }
{
    match piece {
        Piece::Do(_, instr) => instr,
        Piece::Branch(_, e, label) => Instr::Branch(e, place_at(marks, label)),
        Piece::Jump(_, label) => Instr::Jump(place_at(marks, label)),
    }
}

fn piece_place(piece: &Piece) -> At
    ensures { result ≡ piece_place piece.now }
{
    match piece {
        Piece::Do(at, _) => *at,
        Piece::Branch(at, _, _) => *at,
        Piece::Jump(at, _) => *at,
    }
}

fn places(alloc: Global, pieces: &[Piece]) -> Result<Vec<At>, NoMemory>
    ensures { IfOk result (λ out. out.items ≡ map piece_place pieces.now) }
{
    let mut out = Vec::new(alloc);
    for piece in pieces {
        out.push(piece_place(piece))?;
    }
    Ok(out)
}

fn instrs(alloc: Global, marks: &[u32], pieces: Vec<Piece>) -> Result<Vec<Instr>, NoMemory>
    ensures { IfOk result (λ out. out.items ≡ map (settled marks.now) pieces.items) }
{
    let mut out = Vec::new(alloc);
    for piece in pieces {
        out.push(settled(marks, piece))?;
    }
    Ok(out)
}

/// The thread whose code this is.
pub fn settled_thread(alloc: Global, code: Assembler) -> Result<Thread, NoMemory>
    ensures { IfOk result (λ t. t ≡ settled_thread code) }
{
    let locals = code.next();
    let (pieces, marks) = code.into_parts();
    let places = places(alloc, &pieces)?;
    let instrs = instrs(alloc, &marks, pieces)?;
    Ok(Thread {
        locals,
        code: List::new(instrs),
        places: List::new(places),
    })
}
