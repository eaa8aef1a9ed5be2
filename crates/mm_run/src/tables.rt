//! The tables and limits that the definitions stand on, spelled out.
ghost use Rattle.std.specs.Prelude.{◌≡◌, List, [], ◌∷◌, map, codes, Some, None};
ghost use Rattle.mm_goto.specs.declared.limits.TheConstants as most;
ghost use Rattle.mm_goto.specs.declared.model.Model.TheVariants.{Tso, Pso};
ghost use Rattle.mm_goto.specs.declared.pure.Binary.TheVariants as binary;
ghost use Rattle.mm_tree.specs.declared.side.Side.TheVariants.{Source, Output};
ghost use Rattle.mm_parse_expr.specs.declared.symbol.Keyword.TheVariants as word;
ghost use Rattle.mm_parse_expr.specs.declared.symbol.Symbol.TheVariants as symbol;
ghost use Rattle.mm_parse_expr.specs.Symbols.{word_symbol, mark_symbol};
ghost use Rattle.mm_small.specs.declared.tree.TheConstants.{MAX_VARIABLES, MAX_SITES};
ghost use Rattle.mm_grammar.specs.Nesting.{limits};
ghost use Rattle.mm_run.specs.declared.command.Settings.TheVariants.{Instrument, Cycles, ReplaySc, Replay};
ghost use Rattle.mm_run.specs.declared.input.TheConstants.{MAX_INPUT};
ghost use Rattle.mm_run.specs.declared.status.Status.TheVariants.{Done, Words, ReadFault, TooLong, Refused, BadSchedule, Stuck, NotFailing, WriteFault, NoMemory};
ghost use Rattle.mm_run.specs.Settings.{words_of};
ghost use Rattle.mm_run.specs.Status.{number_of};

/// The words of the commands.
pub fn commands_have_words()
    ensures instrument { words_of (Instrument Tso 1) ≡ codes "instrument" ∷ codes "--mm" ∷ codes "tso" ∷ codes "--bound" ∷ codes "1" ∷ [] }
    ensures cycles { words_of (Cycles Pso 2) ≡ codes "cycles" ∷ codes "--mm" ∷ codes "pso" ∷ codes "--bound" ∷ codes "2" ∷ [] }
    ensures replay { words_of (Replay Pso 8) ≡ codes "replay" ∷ codes "--mm" ∷ codes "pso" ∷ codes "--bound" ∷ codes "8" ∷ [] }
    ensures direct { words_of ReplaySc ≡ codes "replay" ∷ codes "--mm" ∷ codes "sc" ∷ [] }
{}

/// The exit statuses, and how long an input may be.
pub fn numbers_are_kept()
    ensures statuses { map number_of (Done ∷ Words ∷ ReadFault ∷ TooLong ∷ Refused ∷ BadSchedule ∷ Stuck ∷ NotFailing ∷ WriteFault ∷ NoMemory ∷ [])
        ≡ 0 ∷ 1 ∷ 2 ∷ 3 ∷ 4 ∷ 5 ∷ 6 ∷ 7 ∷ 8 ∷ 9 ∷ [] }
    ensures input { MAX_INPUT ≡ 16777216 }
{}

/// How much a goto program may have.
pub fn a_program_has_its_limits()
    ensures threads { most.MAX_THREADS ≡ 16 }
    ensures instructions { most.MAX_INSTRUCTIONS ≡ 8388608 }
    ensures locals { most.MAX_LOCALS ≡ 524288 }
    ensures mutexes { most.MAX_MUTEXES ≡ 64 }
    ensures cells { most.MAX_CELLS ≡ 65536 }
{}

/// How deep a text of each side may nest, and how much a small program may have.
pub fn a_text_nests_within_limits()
    ensures source { limits Source ≡ record { brackets = 200; tokens = 200; words = 200 } }
    ensures output { limits Output ≡ record { brackets = 512; tokens = 2048; words = 200 } }
    ensures variables { MAX_VARIABLES ≡ 256 }
    ensures accesses { MAX_SITES ≡ 1024 }
{}

/// The marks of the profile are what C calls so.
#[tactic(auto, unfolding(mm_parse_expr::specs::Symbols::mark_symbol))]
pub fn marks_are_told()
    ensures operators { map mark_symbol (codes "*" ∷ codes "/" ∷ codes "%" ∷ codes "+" ∷ codes "-" ∷ codes "<<" ∷ codes ">>" ∷ codes "<" ∷ codes "<=" ∷ codes ">" ∷ codes ">=" ∷ codes "==" ∷ codes "!=" ∷ codes "&" ∷ codes "^" ∷ codes "|" ∷ codes "&&" ∷ codes "||" ∷ [])
        ≡ map symbol.Operator (binary.Mul ∷ binary.Div ∷ binary.Rem ∷ binary.Add ∷ binary.Sub ∷ binary.Shl ∷ binary.Shr ∷ binary.Lt ∷ binary.Le ∷ binary.Gt ∷ binary.Ge ∷ binary.Eq ∷ binary.Ne ∷ binary.And ∷ binary.Xor ∷ binary.Or ∷ binary.Land ∷ binary.Lor ∷ []) }
    ensures updates { map mark_symbol (codes "*=" ∷ codes "/=" ∷ codes "%=" ∷ codes "+=" ∷ codes "-=" ∷ codes "<<=" ∷ codes ">>=" ∷ codes "&=" ∷ codes "^=" ∷ codes "|=" ∷ [])
        ≡ map symbol.Update (binary.Mul ∷ binary.Div ∷ binary.Rem ∷ binary.Add ∷ binary.Sub ∷ binary.Shl ∷ binary.Shr ∷ binary.And ∷ binary.Xor ∷ binary.Or ∷ []) }
    ensures others { map mark_symbol (codes "++" ∷ codes "--" ∷ codes "!" ∷ codes "~" ∷ codes "=" ∷ codes "?" ∷ codes ":" ∷ codes ";" ∷ codes "," ∷ codes "(" ∷ codes ")" ∷ codes "[" ∷ codes "]" ∷ codes "{" ∷ codes "}" ∷ codes "->" ∷ codes "." ∷ [])
        ≡ symbol.Increment ∷ symbol.Decrement ∷ symbol.Not ∷ symbol.Flip ∷ symbol.Assign ∷ symbol.Question ∷ symbol.Colon ∷ symbol.Semicolon ∷ symbol.Comma ∷ symbol.Open ∷ symbol.Close ∷ symbol.OpenBracket ∷ symbol.CloseBracket ∷ symbol.OpenBrace ∷ symbol.CloseBrace ∷ symbol.Outside ∷ symbol.Outside ∷ [] }
{}

/// The words of the profile are what C and its libraries call so.
#[tactic(auto, unfolding(mm_parse_expr::specs::Symbols::word_symbol))]
pub fn words_are_told()
    ensures items { map word_symbol (codes "int" ∷ codes "void" ∷ codes "static" ∷ codes "volatile" ∷ codes "extern" ∷ codes "pthread_t" ∷ codes "pthread_mutex_t" ∷ codes "PTHREAD_MUTEX_INITIALIZER" ∷ [])
        ≡ map symbol.Keyword (word.Int ∷ word.Void ∷ word.Static ∷ word.Volatile ∷ word.Extern ∷ word.Thread ∷ word.Mutex ∷ word.MutexInitializer ∷ []) }
    ensures statements { map word_symbol (codes "if" ∷ codes "else" ∷ codes "while" ∷ codes "do" ∷ codes "for" ∷ codes "break" ∷ codes "continue" ∷ codes "return" ∷ codes "goto" ∷ codes "assert" ∷ [])
        ≡ map symbol.Keyword (word.If ∷ word.Else ∷ word.While ∷ word.Do ∷ word.For ∷ word.Break ∷ word.Continue ∷ word.Return ∷ word.Goto ∷ word.Assert ∷ []) }
    ensures calls { map word_symbol (codes "pthread_create" ∷ codes "pthread_join" ∷ codes "pthread_mutex_lock" ∷ codes "pthread_mutex_unlock" ∷ codes "__sync_synchronize" ∷ codes "__sync_fetch_and_add" ∷ codes "__sync_bool_compare_and_swap" ∷ codes "__CPROVER_assume" ∷ codes "__CPROVER_assert" ∷ codes "__CPROVER_atomic_begin" ∷ codes "__CPROVER_atomic_end" ∷ [])
        ≡ map symbol.Keyword (word.Create ∷ word.Join ∷ word.Lock ∷ word.Unlock ∷ word.Synchronize ∷ word.FetchAndAdd ∷ word.CompareAndSwap ∷ word.Assume ∷ word.ProverAssert ∷ word.AtomicBegin ∷ word.AtomicEnd ∷ []) }
    ensures null { word_symbol (codes "NULL") ≡ symbol.Null }
{}
