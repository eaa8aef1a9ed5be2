ghost use Rattle.std.specs.Prelude.{◌≡◌, ◌+◌, ◌<◌, ◌^◌, length, replicate, Some, MatchResult};
ghost use Rattle.mm_sched.specs.State.{State};
ghost use Rattle.mm_sched.specs.Event.{next};
ghost use Rattle.mm_sched.specs.Runs.{run};
ghost use Rattle.mm_sched.specs.ScheduleText.{entries_in};
ghost use Rattle.mm_run.specs.Outcome.{IsStuckBehind};

use mm_buf::Buf;
use mm_sc::Sc;
use mm_sched::{Entry, Line, Stuck};

/// A machine that runs a program.
pub trait Machine {
    ghost use Rattle.mm_goto.specs.Listing.{Listing};
    ghost use Rattle.mm_sched.specs.declared.entry.Rules.{Rules};
    ghost use Rattle.mm_sched.specs.Running.{Follows};

    /// The rules by which it steps, the program, and the state.
    ghost rules: { Self → Rules };

    ghost program: { Self → Listing };

    ghost state: { Self → State };

    /// Takes the entry. On an `Err` it is not enabled.
    fn step(&mut self, entry: Entry) -> Result<(), Stuck>
        ensures rules { rules self.new ≡ rules self.old }
        ensures program { program self.new ≡ program self.old }
        ensures step { Follows (next (rules self.old) (program self.old) (state self.old) entry) (state self.old) result (state self.new) };

    /// The number of the assertion that failed.
    fn verdict(&self) -> Option<u32>
        ensures { result ≡ (state self.now).verdict };
}

impl Machine for Sc<'_> {
    ghost use Rattle.mm_sched.specs.declared.entry.Rules.TheVariants.{Sc as Direct};

    ghost rules = { λ _. Direct };

    ghost program = { λ sc. sc.program };

    ghost state = { λ sc. sc.state };

    fn step(&mut self, entry: Entry) -> Result<(), Stuck> {
        self.step(entry)
    }

    fn verdict(&self) -> Option<u32> {
        self.verdict()
    }
}

impl Machine for Buf<'_> {
    ghost use Rattle.mm_sched.specs.declared.entry.Rules.TheVariants.{Buffered};

    ghost rules = { λ buf. Buffered buf.model buf.bound };

    ghost program = { λ buf. buf.program };

    ghost state = { λ buf. buf.state };

    fn step(&mut self, entry: Entry) -> Result<(), Stuck> {
        self.step(entry)
    }

    fn verdict(&self) -> Option<u32> {
        self.verdict()
    }
}

/// Takes the line's entries. On an `Err`, so many were taken before one that is not enabled.
#[tactic(auto, using(crate::proofs::Replaying::none_taken, crate::proofs::Replaying::entry_taken, crate::proofs::Replaying::all_taken))]
fn take_line<M: Machine>(machine: &mut M, line: Line) -> Result<(), u32>
    ensures rules { M.rules machine.new ≡ M.rules machine.old }
    ensures program { M.program machine.new ≡ M.program machine.old }
    ensures taken { MatchResult result
        (λ _. run (M.rules machine.old) (M.program machine.old) (M.state machine.old) (replicate line.count line.item) ≡ Some (M.state machine.new))
        (IsStuckBehind (M.rules machine.old) (M.program machine.old) (M.state machine.old) (replicate line.count line.item)) }
{
    for taken in 0..line.count {
        match machine.step(line.item) {
            Ok(()) => {}
            Err(_) => return Err(taken),
        }
    }
    Ok(())
}

/// Takes the entries of the lines. On an `Err`, so many were taken before one that is not enabled.
pub fn take_lines<M: Machine>(machine: &mut M, lines: &[Line]) -> Result<(), u32>
    requires { length (entries_in lines.now) < 2 ^ 32 }
    ensures rules { M.rules machine.new ≡ M.rules machine.old }
    ensures program { M.program machine.new ≡ M.program machine.old }
    ensures taken { MatchResult result
        (λ _. run (M.rules machine.old) (M.program machine.old) (M.state machine.old) (entries_in lines.now) ≡ Some (M.state machine.new))
        (IsStuckBehind (M.rules machine.old) (M.program machine.old) (M.state machine.old) (entries_in lines.now)) }
{
    let mut taken = 0;
    for line in lines {
        match take_line(machine, *line) {
            Ok(()) => taken += line.count,
            Err(more) => return Err(taken + more),
        }
    }
    Ok(())
}
