//! What the grammar of programs says, and how it is read.
ghost use Rattle.std.specs.Prelude.{◌≡◌, ℕ, ◌<◌, List, [], length};
ghost use Rattle.mm_tree.specs.declared.item.Tree.{Tree};
ghost use Rattle.mm_reading.specs.Parsing.{Parsed, Fault};
ghost use Rattle.mm_reading.specs.Runs.{IsFirstRefusal};
ghost use Rattle.mm_parse_expr.specs.declared.terminal.Terminal.{Terminal};
ghost use Rattle.mm_grammar.specs.ProgramGrammar.{IsProgram};
ghost use Rattle.mm_grammar.specs.reading.ProgramReading.{program};

/// The tokens of a program tell its tree.
pub fn one_program()
    ensures { (ts : List Terminal) (a b : Tree) → IsProgram ts a → IsProgram ts b → a ≡ b }
{}

/// Recursive descent reads all the tokens as a program exactly where they are one.
pub fn programs_are_read()
    ensures sound { (n : ℕ) (ts : List Terminal) (tree : Tree) → program n ts ≡ Parsed tree [] → IsProgram ts tree }
    ensures complete { (n : ℕ) (ts : List Terminal) (tree : Tree) → length ts < n → IsProgram ts tree → program n ts ≡ Parsed tree [] }
{}

/// Where recursive descent gives a fault the tokens are no program, and the fault stands behind the longest run of them
/// that begins one.
pub fn faults_are_first()
    ensures { (n : ℕ) (ts rest : List Terminal) → length ts < n → program n ts ≡ Fault rest → IsFirstRefusal IsProgram ts rest }
{}
