//! A machine at work.

ghost use Rattle.std.specs.Prelude.{◌≡◌, ◌+◌, ◌<◌, ◌≤◌, ◌^◌, length, IfOk, OnOk, MatchResult};
ghost use Rattle.mm_sched.specs.declared.entry.Rules.TheVariants.{Buffered};
ghost use Rattle.mm_sched.specs.declared.schedule.TheConstants.{MAX_ENTRIES};
ghost use Rattle.mm_sched.specs.State.{initial};
ghost use Rattle.mm_rungraph.specs.Extension.{extension};
ghost use Rattle.mm_runkeys.specs.reading.Behind.{Given};
ghost use Rattle.mm_runkeys.specs.reading.Marks.{start};
ghost use Rattle.mm_rungraph.specs.reading.Walking.{Leads, Steps, Stops, Halts, Goes, Ends, Extends, Lacks};

use crate::entries::add_flushes;
use crate::graph::RunFault;
use mm_goto::{Bound, Model, NoMemory, Program};
use mm_runkeys::{Layout, Marks, RunEdge, RunNode};
use mm_sched::{Entry, Interpreter, Rules};
use std::alloc::Global;

/// A machine at work, and what is known of its run.
#[derive(Drop)]
pub struct Walk {
    machine: Interpreter,
    marks: Marks,
}

impl std::marker::Model for Walk {
    ghost use Rattle.mm_rungraph.specs.reading.Walking.{Walking};

    ghost Value = { Walking };

    ghost view = { λ w. record { state = w.machine.state; room = w.machine.room; marks = w.marks } };
}

impl Walk {
    /// The machine at the program's start.
    #[tactic(auto, using(crate::proofs::Starting::few_queues, crate::proofs::Starting::few_joins, crate::proofs::Starting::start_goes))]
    pub fn new(
        alloc: Global,
        model: Model,
        bound: Bound,
        program: &Program,
        layout: &Layout,
    ) -> Result<Walk, NoMemory>
        requires cells { layout.now.cells ≡ length program.now.cells }
        requires threads { layout.now.threads ≡ length program.now.threads }
        ensures state { IfOk result (λ w. w.state ≡ initial program.now) }
        ensures marks { IfOk result (λ w. w.marks ≡ start layout.now (length program.now.mutexes)) }
        ensures goes { IfOk result (λ w. Goes (Buffered model bound) program.now layout.now w) }
    {
        let machine = Interpreter::new(alloc, &Rules::Buffered(model, bound), program)?;
        let marks = Marks::new(alloc, layout, program.mutexes().len())?;
        Ok(Walk { machine, marks })
    }

    /// Takes the entry of the number.
    fn step(
        &mut self,
        rules: &Rules,
        program: &Program,
        layout: &Layout,
        entry: Entry,
        number: u64,
    ) -> Result<(), RunFault>
        requires goes { Goes rules.now program.now layout.now self.old }
        requires count { self.old.marks.count + 1 < 2 ^ 32 }
        ensures goes { OnOk result (Goes rules.now program.now layout.now self.new) }
        ensures count { OnOk result (self.new.marks.count ≡ self.old.marks.count + 1) }
        ensures step { MatchResult result (λ _. Steps rules.now program.now layout.now self.old entry self.new) (λ f. Halts rules.now program.now self.old.state entry number f) }
    {
        match self.machine.take(rules, program, entry) {
            Some(event) => {
                self.marks.step(layout, event)?;
                Ok(())
            }
            None => Err(RunFault::Stuck(number)),
        }
    }

    /// Takes the entries in turn.
    fn take(
        &mut self,
        rules: &Rules,
        program: &Program,
        layout: &Layout,
        entries: &[Entry],
    ) -> Result<(), RunFault>
        requires goes { Goes rules.now program.now layout.now self.old }
        requires count { self.old.marks.count + length entries.now < 2 ^ 32 }
        ensures goes { OnOk result (Goes rules.now program.now layout.now self.new) }
        ensures count { OnOk result (self.new.marks.count ≡ self.old.marks.count + length entries.now) }
        ensures take { MatchResult result (λ _. Leads rules.now program.now layout.now self.old entries.now self.new) (λ f. Stops rules.now program.now self.old.state entries.now f) }
    {
        for (i, entry) in entries.iter().enumerate() {
            self.step(rules, program, layout, *entry, i as u64 + 1)?;
        }
        Ok(())
    }

    /// The number of the assertion that failed.
    fn verdict(&self) -> Result<u32, RunFault>
        ensures { Ends self.now.state result }
    {
        match self.machine.verdict() {
            Some(n) => Ok(n),
            None => Err(RunFault::NotFailing),
        }
    }

    /// The flushes of all that is pending, by thread, the oldest first.
    fn extension(&self, alloc: Global, model: Model, threads: usize) -> Result<Vec<Entry>, NoMemory>
        requires threads { threads ≡ length self.now.state.pending }
        requires few { threads < 2 ^ 32 }
        ensures { IfOk result (λ entries. entries.items ≡ extension model self.now.state) }
    {
        let mut entries = Vec::new(alloc);
        for t in 0..threads {
            add_flushes(
                &mut entries,
                model,
                t as u32,
                self.machine.pending(t as u32),
            )?;
        }
        Ok(entries)
    }

    /// Takes the entries, and then the flushes of what is pending, which it adds to them. It gives the number of the assertion
    /// that fails.
    pub fn extend(
        &mut self,
        alloc: Global,
        model: Model,
        bound: Bound,
        program: &Program,
        layout: &Layout,
        entries: &mut Vec<Entry>,
    ) -> Result<u32, RunFault>
        requires goes { Goes (Buffered model bound) program.now layout.now self.old }
        requires start { self.old.state ≡ initial program.now }
        requires few { self.old.marks.count + length entries.old.items ≤ MAX_ENTRIES }
        ensures { MatchResult result (λ n. Extends model bound program.now layout.now self.old entries.old.items n self.new entries.new.items) (Lacks model bound program.now layout.now self.old entries.old.items) }
    {
        let rules = Rules::Buffered(model, bound);
        self.take(&rules, program, layout, entries.as_slice())?;
        let verdict = self.verdict()?;
        let flushes = self.extension(alloc, model, program.threads().len())?;
        self.take(&rules, program, layout, flushes.as_slice())?;
        entries.extend_from_slice(flushes.as_slice())?;
        Ok(verdict)
    }

    /// The nodes and the edges, the machine having done its work.
    pub fn given(self, alloc: Global) -> Result<(Vec<RunNode>, Vec<RunEdge>), NoMemory>
        ensures { IfOk result (λ it. Given self.marks it.0.items it.1.items) }
    {
        self.marks.given(alloc)
    }
}
