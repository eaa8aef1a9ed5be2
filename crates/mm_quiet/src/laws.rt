//! What code does that uses locals alone.

ghost use Rattle.std.specs.Prelude.{◌≡◌, ℕ, ◌+◌, List};
ghost use Rattle.mm_goto.specs.Listing.{Listing};
ghost use Rattle.mm_goto.specs.declared.program.Instr.{Instr};
ghost use Rattle.mm_flow.specs.Flow.{Flow, Ways, size};
ghost use Rattle.mm_meaning.specs.Acting.{act};
ghost use Rattle.mm_meaning.specs.Inside.{frame};
ghost use Rattle.mm_meaning.specs.Meaning.{View, Done, meaning};
ghost use Rattle.mm_meaning.specs.Sections.{HasCode};
ghost use Rattle.mm_meaning.specs.Standing.{Stands};
ghost use Rattle.mm_quiet.specs.Quietly.{IsQuiet, Quietly};

/// A thread that stands before code that uses locals alone, and that does not end in a failure or a false assumption, comes to its end
/// by steps of its own as the code means, whatever the rest of the state is; it changes nothing but its own frame.
pub fn quiet_code_runs()
    ensures { (p : Listing) (t : ℕ) (code : List Instr) → HasCode p t code →
        (f : Flow) → IsQuiet f → (x : Ways) (n k : ℕ) (v u : View) → Stands code x f k → meaning act f n v ≡ Done u →
        (steps : ℕ) × Quietly p t steps (frame k v) (frame (k + size f) u) × (u.memory ≡ v.memory) × (u.inputs ≡ v.inputs) }
{}
