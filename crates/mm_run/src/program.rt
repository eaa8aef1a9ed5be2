ghost use Rattle.std.specs.Prelude.{◌≡◌, ◌≢◌, ◌≤◌, ◌++◌, ℕ, List, length, codes, string_bytes, IfOk, IfErr, OnOk, None};
ghost use Rattle.mm_lexer.specs.Tokens.{AreTokens, IsFirstFault};
ghost use Rattle.mm_lexer.specs.declared.token.Token.{Token as TokenValue};
ghost use Rattle.mm_tree.specs.declared.item.Tree.{Tree as TreeValue};
ghost use Rattle.mm_grammar.specs.Meaning.{IsTreeOf};
ghost use Rattle.mm_goto.specs.Place.{start};
ghost use Rattle.mm_flow.specs.Programs.{limit_passed, program_of as flattened};
ghost use Rattle.mm_names.specs.Programs.{IsAccepted as MakesSense, IsRefused as IsNameFault};
ghost use Rattle.mm_tree.specs.declared.side.Side.{Side as SideValue};
ghost use Rattle.mm_parse.specs.Faults.{IsFault};
ghost use Rattle.mm_run.specs.Program.{IsProgramText, limit_words};
ghost use Rattle.mm_run.specs.Refusal.{Rejects, Says};
ghost use Rattle.mm_run.specs.reading.Sound.{FlattensWell, HasSections};

use crate::input::MAX_INPUT;
use mm_flat::{FlatFault, Limit, flatten};
use mm_goto::{At, Program};
use mm_lexer::{LexFault, lex};
use mm_names::{Checked, NameFault, check_owned};
use mm_parse::{ParseFault, parse};
use mm_tree::{Side, Tree};
use std::alloc::Global;

/// Why a program is refused, and where.
#[derive(Debug, Drop)]
pub struct Refusal {
    pub at: At,
    pub why: String,
}

/// Why a text gave no program.
#[derive(Debug, Drop)]
pub enum ProgramFault {
    Refused(Refusal),
    NoMemory,
}

fn refuse(alloc: Global, at: At, why: &str) -> ProgramFault
    ensures { Says result at why.now }
{
    match String::from_str(alloc, why) {
        Ok(why) => ProgramFault::Refused(Refusal { at, why }),
        Err(_) => ProgramFault::NoMemory,
    }
}

fn outside_profile(alloc: Global, at: At, word: &str) -> ProgramFault
    ensures { Says result at (codes "outside profile: " ++ word.now) }
{
    match format!(in alloc; "outside profile: {word}") {
        Ok(why) => ProgramFault::Refused(Refusal { at, why }),
        Err(_) => ProgramFault::NoMemory,
    }
}

fn unlexed(alloc: Global, fault: LexFault) -> ProgramFault
    ensures { (side : SideValue) (text : List ℕ) → (fault ≢ LexFault.NoMemory → IsFirstFault text fault) → Rejects side text result }
{
    match fault {
        LexFault::BadToken(at) => refuse(alloc, at, "bad token"),
        LexFault::NumberTooLarge(at) => refuse(alloc, at, "number too large"),
        LexFault::NoMemory => ProgramFault::NoMemory,
    }
}

fn unparsed(alloc: Global, fault: ParseFault) -> ProgramFault
    ensures { (side : SideValue) (text : List ℕ) (tokens : List TokenValue) → AreTokens text tokens → (fault ≢ ParseFault.NoMemory → IsFault side text tokens fault) → Rejects side text result }
{
    match fault {
        ParseFault::TooDeep(at) => refuse(alloc, at, "too deep"),
        ParseFault::OutsideProfile(word, at) => outside_profile(alloc, at, word.text()),
        ParseFault::BadSyntax(at) => refuse(alloc, at, "bad syntax"),
        ParseFault::NoMemory => ProgramFault::NoMemory,
    }
}

fn senseless(alloc: Global, fault: NameFault) -> ProgramFault
    ensures { (side : SideValue) (text : List ℕ) (tree : TreeValue) → IsTreeOf side text tree → (fault ≢ NameFault.NoMemory → IsNameFault side tree fault) → Rejects side text result }
{
    match fault {
        NameFault::NoMain(at) => refuse(alloc, at, "no main"),
        NameFault::ReservedName(at) => refuse(alloc, at, "reserved name"),
        NameFault::OutputOnly(at) => refuse(alloc, at, "output only"),
        NameFault::TwiceDeclared(at) => refuse(alloc, at, "declared twice"),
        NameFault::UnknownName(at) => refuse(alloc, at, "unknown name"),
        NameFault::WrongType(at) => refuse(alloc, at, "wrong type"),
        NameFault::BadThread(at) => refuse(alloc, at, "bad thread"),
        NameFault::Recursion(at) => refuse(alloc, at, "recursion"),
        NameFault::NoMemory => ProgramFault::NoMemory,
    }
}

/// The tree of a text, or why it is refused.
fn tree_of(alloc: Global, text: &str, side: Side) -> Result<Tree, ProgramFault>
    requires { length text.now ≤ MAX_INPUT }
    ensures tree { IfOk result (λ tree. IsTreeOf side text.now tree) }
    ensures refused { IfErr result (λ fault. Rejects side text.now fault) }
{
    let tokens = match lex(alloc, text) {
        Ok(tokens) => tokens,
        Err(fault) => return Err(unlexed(alloc, fault)),
    };
    match parse(alloc, text, &tokens, side) {
        Ok(tree) => Ok(tree),
        Err(fault) => Err(unparsed(alloc, fault)),
    }
}

fn too_large(alloc: Global, limit: Limit) -> ProgramFault
    ensures { Says result start (limit_words limit) }
{
    let why = match limit {
        Limit::Threads => "too many threads",
        Limit::NestedCalls => "too many nested calls",
        Limit::Instructions => "too many instructions",
        Limit::Locals => "too many locals",
        Limit::Mutexes => "too many mutexes",
        Limit::Cells => "too many cells",
    };
    refuse(alloc, At::start(), why)
}

/// The tree of a program of the side that makes sense, or why the text is none.
fn checked_tree(alloc: Global, text: &str, side: Side) -> Result<Checked, ProgramFault>
    requires { length text.now ≤ MAX_INPUT }
    ensures read { IfOk result (λ checked. IsTreeOf side text.now checked.tree) }
    ensures sense { IfOk result (λ checked. MakesSense side checked.tree) }
    ensures well { IfOk result (λ checked. FlattensWell side checked.tree) }
    ensures refused { IfErr result (λ fault. Rejects side text.now fault) }
{
    let tree = tree_of(alloc, text, side)?;
    match check_owned(alloc, tree, side) {
        Ok(checked) => Ok(checked),
        Err(fault) => Err(senseless(alloc, fault)),
    }
}

/// The goto program of a tree, or which limit it passes.
fn flat(alloc: Global, tree: &Tree, side: Side) -> Result<Program, ProgramFault>
    requires well { FlattensWell side tree.now }
    ensures program { IfOk result (λ p. p ≡ flattened side tree.now) }
    ensures within { OnOk result (limit_passed side tree.now ≡ None) }
    ensures sections { IfOk result (HasSections side) }
    ensures refused { IfErr result (λ fault. (text : List ℕ) → IsTreeOf side text tree.now → MakesSense side tree.now → Rejects side text fault) }
{
    match flatten(alloc, tree, side) {
        Ok(program) => Ok(program),
        Err(FlatFault::TooMany(limit)) => Err(too_large(alloc, limit)),
        Err(FlatFault::NoMemory) => Err(ProgramFault::NoMemory),
    }
}

/// The goto program of a text of the side, or why it is none: by the first of these stages that refuses it: tokens, nesting, the
/// grammar, names and types, and limits.
pub fn any_program(alloc: Global, text: &str, side: Side) -> Result<Program, ProgramFault>
    requires { length text.now ≤ MAX_INPUT }
    ensures program { IfOk result (λ program. IsProgramText side text.now program) }
    ensures sections { IfOk result (HasSections side) }
    ensures refused { IfErr result (λ fault. Rejects side text.now fault) }
{
    let checked = checked_tree(alloc, text, side)?;
    flat(alloc, &checked.tree, side)
}
