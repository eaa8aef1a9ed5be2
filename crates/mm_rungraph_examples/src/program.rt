//! The goto program of a source.
ghost use Rattle.std.specs.Prelude.{◌≤◌, length, IfSome};
ghost use Rattle.mm_goto.specs.Sourcelike.{IsSourcelike};
ghost use Rattle.mm_grammar.specs.Meaning.{IsTreeOf};
ghost use Rattle.mm_sched.specs.Sections.{HasNoSection};
ghost use Rattle.mm_tree.specs.declared.side.Side.TheVariants.{Source};
ghost use Rattle.mm_rungraph_examples.specs.Flattening.{FlattensWell};

use mm_flat::flatten;
use mm_goto::Program;
use mm_lexer::lex;
use mm_names::{Checked, check_owned};
use mm_parse::parse;
use mm_tree::{Side, Tree};
use std::alloc::Global;

fn tree_of(alloc: Global, text: &str) -> Option<Tree>
    requires { length text.now ≤ 16777216 }
    ensures { IfSome result (λ tree. IsTreeOf Source text.now tree) }
{
    let tokens = match lex(alloc, text) {
        Ok(tokens) => tokens,
        Err(_) => return None,
    };
    match parse(alloc, text, &tokens, Side::Source) {
        Ok(tree) => Some(tree),
        Err(_) => None,
    }
}

/// The tree of a source that makes sense.
fn checked_of(alloc: Global, text: &str) -> Option<Checked>
    requires { length text.now ≤ 16777216 }
    ensures { IfSome result (λ checked. FlattensWell checked.tree) }
{
    let tree = tree_of(alloc, text)?;
    match check_owned(alloc, tree, Side::Source) {
        Ok(checked) => Some(checked),
        Err(_) => None,
    }
}

/// The goto program of a source.
pub fn program_of(alloc: Global, text: &str) -> Option<Program>
    requires { length text.now ≤ 16777216 }
    ensures sections { IfSome result HasNoSection }
    ensures source { IfSome result IsSourcelike }
{
    let checked = checked_of(alloc, text)?;
    match flatten(alloc, &checked.tree, Side::Source) {
        Ok(program) => Some(program),
        Err(_) => None,
    }
}
