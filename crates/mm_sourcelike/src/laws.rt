//! What holds of flattened programs.

ghost use Rattle.std.specs.Prelude.{◌≡◌, ◌≢◌, ◌+◌, ◌++◌, ◌-◌, ◌<◌, ◌≤◌, ℕ, All, Bool, IsSomeAnd, None, Some, false, length, slice_get, ◌^◌, List};
ghost use Rattle.std.specs.Str.{IsUtf8};
ghost use Rattle.std.specs.List.{flat_map};
ghost use Rattle.mm_goto.specs.declared.program.Instr.{Instr};
ghost use Rattle.mm_goto.specs.declared.program.Instr.TheVariants.{End, Join, Start};
ghost use Rattle.mm_goto.specs.declared.program.Cell.{Cell};
ghost use Rattle.mm_goto.specs.declared.program.Thread.{Thread};
ghost use Rattle.mm_goto.specs.Checks.{DividesInTime, targets, value_exprs};
ghost use Rattle.mm_goto.specs.Kinds.{IsInstrTyped, NamesInts};
ghost use Rattle.mm_goto.specs.Names.{IsDeclarable};
ghost use Rattle.mm_goto.specs.Parts.{addressed, arrays_of, levels, nodes, numbers};
ghost use Rattle.mm_goto.specs.Sourcelike.{AreApart, IsGuarded, IsSingle, IsSourceCell, IsSourcelike, IsWholeArray, IsWithinSource, JumpPassesNone, UpdatesApart, exprs_of, is_section, target_cells, target_nodes, target_rows};
ghost use Rattle.mm_goto.specs.Valid.{IsValid, code_of};
ghost use Rattle.mm_tree.specs.declared.item.Tree.{Tree};
ghost use Rattle.mm_tree.specs.declared.side.Side.{Side};
ghost use Rattle.mm_tree.specs.declared.side.Side.TheVariants.{Source};
ghost use Rattle.mm_names.specs.Programs.{IsAccepted};
ghost use Rattle.mm_flow.specs.Programs.{limit_passed, program_of};
ghost use Rattle.mm_grammar.specs.Meaning.{IsTreeOf};
ghost use Rattle.mm_print.specs.Printable.{IsPrintableTree};
ghost use Rattle.mm_sourcelike.specs.Checks.{ChecksStandAlone};
ghost use Rattle.mm_sourcelike.specs.Grammatical.{IsGrammatical, IsUnsigned};
ghost use Rattle.mm_sourcelike.specs.Ints.{AreInts};
ghost use Rattle.mm_sourcelike.specs.Shapes.{IsScoped};

/// The tree of a text is as the grammar has it: its numbers are ints, its declarations stand in blocks, and its expressions are short.
pub fn a_text_has_a_grammatical_tree()
    ensures { (side : Side) (text : List ℕ) (tree : Tree) → IsUtf8 text → length text < 2 ^ 32 → IsTreeOf side text tree → IsGrammatical side tree }
{}

/// The tree of a text is printable: it has the text that is printed of it, which is read as it again.
pub fn a_text_has_a_printable_tree()
    ensures { (side : Side) (text : List ℕ) (tree : Tree) → IsUtf8 text → IsTreeOf side text tree → IsPrintableTree tree }
{}

/// What a text that makes sense is flattened to within the limits is a valid program.
pub fn a_flattened_text_is_valid()
    ensures { (side : Side) (text : List ℕ) (tree : Tree) → IsUtf8 text → length text < 2 ^ 32 → IsTreeOf side text tree → IsAccepted side tree → limit_passed side tree ≡ None → IsValid (program_of side tree) }
{}

/// What the text of a source that makes sense is flattened to within the limits is as the analyses of a source may take it.
pub fn a_source_text_is_sourcelike()
    ensures { (text : List ℕ) (tree : Tree) → IsUtf8 text → length text < 2 ^ 32 → IsTreeOf Source text tree → IsAccepted Source tree → limit_passed Source tree ≡ None → IsSourcelike (program_of Source tree) }
{}

/// Where the goto program of a source text divides though it is not always reached, the expression is the check of an index.
pub fn a_source_text_checks_alone()
    ensures { (text : List ℕ) (tree : Tree) → IsUtf8 text → length text < 2 ^ 32 → IsTreeOf Source text tree → IsAccepted Source tree → limit_passed Source tree ≡ None → ChecksStandAlone (program_of Source tree) }
{}

/// What an accepted tree within the limits is flattened to is a valid program, where its numbers are ints and its
/// declarations stand where the grammar has them.
pub fn a_flattened_program_is_valid()
    ensures { (side : Side) (tree : Tree) → AreInts tree → IsScoped tree → IsAccepted side tree → limit_passed side tree ≡ None → IsValid (program_of side tree) }
{}

/// What a source within the limits is flattened to keeps the limits of a source.
pub fn a_flattened_source_is_within_its_limits()
    ensures { (tree : Tree) → limit_passed Source tree ≡ None → IsWithinSource (program_of Source tree) }
{}

/// Each thread of a flattened program ends at its End.
pub fn each_thread_ends()
    ensures { (side : Side) (tree : Tree) → All (λ t. slice_get t.code (length t.code - 1) ≡ Some End) (program_of side tree).threads }
{}

/// Main starts threads in the order of their numbers.
pub fn main_starts_threads_in_order()
    ensures { (side : Side) (tree : Tree) → AreInts tree → IsScoped tree → IsAccepted side tree → limit_passed side tree ≡ None → (j k u v : ℕ) → j < k → slice_get (code_of (program_of side tree) 0) j ≡ Some (Start u) → slice_get (code_of (program_of side tree) 0) k ≡ Some (Start v) → u < v }
{}

/// Main waits for no thread before it is started.
pub fn main_waits_for_started_threads()
    ensures { (side : Side) (tree : Tree) → AreInts tree → IsScoped tree → IsAccepted side tree → limit_passed side tree ≡ None → (j k u : ℕ) → slice_get (code_of (program_of side tree) 0) j ≡ Some (Start u) → slice_get (code_of (program_of side tree) 0) k ≡ Some (Join u) → j < k }
{}

/// The elements of an array stand together in the order of their indexes.
pub fn elements_stand_in_order()
    ensures { (side : Side) (tree : Tree) (c i : ℕ) (a : Cell) → slice_get (program_of side tree).cells c ≡ Some a → a.index ≡ Some (i + 1) → (1 ≤ c) × IsSomeAnd (slice_get (program_of side tree).cells (c - 1)) (λ b. (b.name ≡ a.name) × (b.index ≡ Some i)) }
{}

/// Every flow path to an instruction of a flattened source passes the checks that it wants, and no local of a check is
/// written behind it.
pub fn each_check_is_passed()
    ensures { (tree : Tree) → AreInts tree → IsScoped tree → IsAccepted Source tree → limit_passed Source tree ≡ None → (t k : ℕ) (thread : Thread) (i : Instr) → slice_get (program_of Source tree).threads t ≡ Some thread → slice_get thread.code k ≡ Some i → IsGuarded thread.code k i }
{}

/// No locked instruction of a flattened source reads the local that it writes.
pub fn updates_stand_apart()
    ensures { (tree : Tree) → AreInts tree → IsScoped tree → IsAccepted Source tree → limit_passed Source tree ≡ None → (t k : ℕ) (thread : Thread) (i : Instr) → slice_get (program_of Source tree).threads t ≡ Some thread → slice_get thread.code k ≡ Some i → UpdatesApart i }
{}

/// No atomic section begins or ends in a flattened source.
pub fn a_source_has_no_section()
    ensures { (tree : Tree) → AreInts tree → IsScoped tree → IsAccepted Source tree → limit_passed Source tree ≡ None → (t k : ℕ) (thread : Thread) (i : Instr) → slice_get (program_of Source tree).threads t ≡ Some thread → slice_get thread.code k ≡ Some i → is_section i ≡ false }
{}

/// No jump of main but to its last instruction passes an instruction that starts a thread or waits for one.
pub fn jumps_of_main_pass_no_thread()
    ensures { (tree : Tree) → AreInts tree → IsScoped tree → IsAccepted Source tree → limit_passed Source tree ≡ None → (j : ℕ) (i : Instr) → slice_get (code_of (program_of Source tree) 0) j ≡ Some i → JumpPassesNone (code_of (program_of Source tree) 0) j i }
{}

/// No thread starts main or waits for it.
pub fn main_is_never_started()
    ensures { (side : Side) (tree : Tree) → AreInts tree → IsScoped tree → IsAccepted side tree → limit_passed side tree ≡ None → (t k : ℕ) (thread : Thread) (i : Instr) → slice_get (program_of side tree).threads t ≡ Some thread → slice_get thread.code k ≡ Some i → (i ≢ Start 0) × (i ≢ Join 0) }
{}

/// Two cells of one name are two elements of one array, and mutexes have names of their own.
pub fn names_stand_apart()
    ensures { (side : Side) (tree : Tree) → IsAccepted side tree → AreApart (program_of side tree) }
{}

/// The elements of an array are ints.
pub fn elements_of_arrays_are_ints()
    ensures { (tree : Tree) → IsGrammatical Source tree → (c i : ℕ) (a : Cell) → slice_get (program_of Source tree).cells c ≡ Some a → a.index ≡ Some i → a.pointer ≡ false }
{}

/// The names of cells may be declared in a source.
pub fn cells_may_be_declared()
    ensures { (tree : Tree) → IsGrammatical Source tree → IsAccepted Source tree → All (λ cell. IsDeclarable cell.name) (program_of Source tree).cells }
{}

/// The names of mutexes may be declared in a source.
pub fn mutexes_may_be_declared()
    ensures { (tree : Tree) → IsGrammatical Source tree → IsAccepted Source tree → All IsDeclarable (program_of Source tree).mutexes }
{}

/// The numbers in the instructions of a flattened source have no sign.
pub fn numbers_have_no_sign()
    ensures { (tree : Tree) → IsGrammatical Source tree → IsAccepted Source tree → limit_passed Source tree ≡ None → (t k : ℕ) (thread : Thread) (i : Instr) → slice_get (program_of Source tree).threads t ≡ Some thread → slice_get thread.code k ≡ Some i → All (λ e. All IsUnsigned (numbers e)) (exprs_of i) }
{}

/// What divides in an instruction of a flattened source is always reached.
pub fn divisions_come_in_time()
    ensures { (tree : Tree) → IsGrammatical Source tree → IsAccepted Source tree → limit_passed Source tree ≡ None → (t k : ℕ) (thread : Thread) (i : Instr) → slice_get (program_of Source tree).threads t ≡ Some thread → slice_get thread.code k ≡ Some i → All DividesInTime (exprs_of i) }
{}

/// Where an instruction of a flattened source divides though it is not always reached, its expression is the check of an index.
pub fn checks_stand_alone()
    ensures { (tree : Tree) → IsGrammatical Source tree → IsAccepted Source tree → limit_passed Source tree ≡ None → ChecksStandAlone (program_of Source tree) }
{}

/// The instructions of a flattened source have few nodes.
pub fn instructions_are_small()
    ensures { (tree : Tree) → IsGrammatical Source tree → IsAccepted Source tree → limit_passed Source tree ≡ None → (t k : ℕ) (thread : Thread) (i : Instr) → slice_get (program_of Source tree).threads t ≡ Some thread → slice_get thread.code k ≡ Some i → (target_nodes i ≤ 410) × All (λ e. target_nodes i + nodes e ≤ 410) (value_exprs i) }
{}

/// The expressions of a flattened source have few levels.
pub fn expressions_are_shallow()
    ensures { (tree : Tree) → IsGrammatical Source tree → IsAccepted Source tree → limit_passed Source tree ≡ None → (t k : ℕ) (thread : Thread) (i : Instr) → slice_get (program_of Source tree).threads t ≡ Some thread → slice_get thread.code k ≡ Some i → All (λ e. levels e ≤ 210) (exprs_of i) }
{}

/// The start values of a flattened source fit their cells.
pub fn start_values_fit_their_cells()
    ensures { (tree : Tree) → IsGrammatical Source tree → IsAccepted Source tree → limit_passed Source tree ≡ None → All (IsSourceCell (program_of Source tree)) (program_of Source tree).cells }
{}

/// There are types for the locals of a thread that its instructions fit.
pub fn locals_have_types()
    ensures { (tree : Tree) → IsGrammatical Source tree → IsAccepted Source tree → limit_passed Source tree ≡ None → (t : ℕ) (thread : Thread) → slice_get (program_of Source tree).threads t ≡ Some thread → (pointers : ℕ → Bool) × All (IsInstrTyped (program_of Source tree) pointers) thread.code }
{}

/// The addresses in a flattened source are those of ints.
pub fn addresses_are_of_ints()
    ensures { (tree : Tree) → IsGrammatical Source tree → IsAccepted Source tree → limit_passed Source tree ≡ None → (t k : ℕ) (thread : Thread) (i : Instr) → slice_get (program_of Source tree).threads t ≡ Some thread → slice_get thread.code k ≡ Some i → All (NamesInts (program_of Source tree)) (exprs_of i) }
{}

/// Where a flattened source names elements, it names them by their whole array.
pub fn elements_are_of_whole_arrays()
    ensures { (tree : Tree) → IsGrammatical Source tree → IsAccepted Source tree → limit_passed Source tree ≡ None → (t k : ℕ) (thread : Thread) (i : Instr) → slice_get (program_of Source tree).threads t ≡ Some thread → slice_get thread.code k ≡ Some i → All (IsWholeArray (program_of Source tree)) (flat_map target_rows (targets i) ++ flat_map arrays_of (exprs_of i)) }
{}

/// The cells that a flattened source names alone are no elements of arrays.
pub fn single_cells_are_no_elements()
    ensures { (tree : Tree) → IsGrammatical Source tree → IsAccepted Source tree → limit_passed Source tree ≡ None → (t k : ℕ) (thread : Thread) (i : Instr) → slice_get (program_of Source tree).threads t ≡ Some thread → slice_get thread.code k ≡ Some i → All (IsSingle (program_of Source tree)) (flat_map target_cells (targets i) ++ flat_map addressed (exprs_of i)) }
{}

/// What an accepted source within the limits is flattened to is a source's program, where its tree is one of the grammar.
pub fn a_flattened_source_is_sourcelike()
    ensures { (tree : Tree) → IsGrammatical Source tree → IsAccepted Source tree → limit_passed Source tree ≡ None → IsSourcelike (program_of Source tree) }
{}
