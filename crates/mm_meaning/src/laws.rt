//! The laws of what structured code means: what it says is what the machine does, both ways.

ghost use Rattle.std.specs.Prelude.{◌≡◌, ℕ, ◌+◌, ◌<◌, ℤ, List, [], ◌∷◌, length, Some};
ghost use Rattle.mm_goto.specs.Listing.{Listing};
ghost use Rattle.mm_goto.specs.declared.program.Instr.{Instr};
ghost use Rattle.mm_sched.specs.declared.entry.Entry.{Entry};
ghost use Rattle.mm_sched.specs.declared.entry.Entry.TheVariants.{Step};
ghost use Rattle.mm_sched.specs.declared.entry.Rules.TheVariants.{Sc};
ghost use Rattle.mm_sched.specs.Runs.{run};
ghost use Rattle.mm_sched.specs.State.{State, Frame, pending_of};
ghost use Rattle.mm_flow.specs.Flow.{Flow, Ways, lay, size};
ghost use Rattle.mm_meaning.specs.Acting.{act};
ghost use Rattle.mm_meaning.specs.Inside.{inputs_of, stand, RunsInside, Meets};
ghost use Rattle.mm_meaning.specs.Meaning.{View, Done, meaning};
ghost use Rattle.mm_meaning.specs.Sections.{HasCode, MayEnter, SectionAt, sees, behind, Section};
ghost use Rattle.mm_meaning.specs.Standing.{Holds, Stands};

/// Code that is laid out from a place on stands there.
pub fn laid_code_stands()
    ensures { (code : List Instr) (x : Ways) (f : Flow) (k : ℕ) → Holds code k (lay x f k) → Stands code x f k }
{}

/// A thread that is in its section goes by its own entries as its code means: to the code's end, by one of the ways out of it,
/// to the assertion that fails, or to where no entry of it leads on (or it makes as many steps as the loops were given turns).
pub fn code_runs_as_it_means()
    ensures { (p : Listing) (t : ℕ) (s : State) → t < length s.threads → pending_of s t ≡ [] →
        (code : List Instr) → HasCode p t code →
        (f : Flow) (x : Ways) (n k : ℕ) (v : View) → Stands code x f k →
        RunsInside p t s x n k v (k + size f) (meaning act f n v) }
{}

/// Whatever the entries of all threads are that are left of a schedule, the thread that is in its section goes as its code
/// means, or they end while it is in the code. Here the loops are given more turns than entries are left.
pub fn any_run_meets_the_meaning()
    ensures { (p : Listing) (t : ℕ) (s : State) → t < length s.threads → pending_of s t ≡ [] →
        (code : List Instr) → HasCode p t code →
        (f : Flow) (n k : ℕ) (v : View) (x : Ways) (es : List Entry) (z : State) → Stands code x f k →
        length es < n → v.inputs ≡ inputs_of es → run Sc p (stand t s k v) es ≡ Some z →
        Meets p t s (k + size f) x es z (meaning act f n v) }
{}

/// Where a section's body is done, there is a schedule that leads over the section to the state that the body's meaning gives.
pub fn a_section_can_run()
    ensures { (p : Listing) (s : State) (t : ℕ) (f : Frame) (c : Flow) (x : Ways) → MayEnter s t f →
        (code : List Instr) → HasCode p t code → SectionAt code f.place c x →
        (n : ℕ) (ins : List ℤ) (v : View) → meaning act c n (sees s f ins) ≡ Done v →
        (es : List Entry) × (run Sc p s es ≡ Some (behind s t (f.place + 1 + size c + 1) v)) }
{}

/// Whatever the entries of all threads are behind a section's begin, they lead over the section as its body means, to the
/// assertion in it that fails, or they end in it: no other thread comes between.
pub fn a_section_runs_alone()
    ensures { (p : Listing) (s : State) (t : ℕ) (f : Frame) (c : Flow) (x : Ways) → MayEnter s t f →
        (code : List Instr) → HasCode p t code → SectionAt code f.place c x →
        (n : ℕ) (es : List Entry) (z : State) → length es < n → run Sc p s (Step t ∷ es) ≡ Some z →
        Section p s t (f.place + 1 + size c + 1) (Step t ∷ es) z (meaning act c n (sees s f (inputs_of es))) }
{}
