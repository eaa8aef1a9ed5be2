//! What holds of all inputs.
ghost use Rattle.std.specs.Prelude.{◌≡◌, ◌<◌, ◌≤◌, ◌^◌, ℕ, List, None, length};
ghost use Rattle.std.specs.Str.{IsUtf8};
ghost use Rattle.mm_goto.specs.Bounds.{IsBound};
ghost use Rattle.mm_goto.specs.Shapes.{Fits};
ghost use Rattle.mm_goto.specs.declared.shape.Head.{Head};
ghost use Rattle.mm_goto.specs.declared.shape.Shape.{Shape};
ghost use Rattle.mm_graph.specs.Graphs.{IsSmall};
ghost use Rattle.mm_tree.specs.declared.item.Tree.{Tree};
ghost use Rattle.mm_tree.specs.declared.side.Side.TheVariants.{Source, Output};
ghost use Rattle.mm_tree.specs.Places.{without_places};
ghost use Rattle.mm_grammar.specs.Meaning.{IsTreeOf};
ghost use Rattle.mm_names.specs.Programs.{IsAccepted};
ghost use Rattle.mm_flow.specs.Programs.{limit_passed, program_of};
ghost use Rattle.mm_print.specs.Items.{printed_text};
ghost use Rattle.mm_instr.specs.Woven.{woven};
ghost use Rattle.mm_run.specs.declared.command.Settings.{Settings};
ghost use Rattle.mm_run.specs.declared.input.TheConstants.{MAX_INPUT};
ghost use Rattle.mm_run.specs.declared.status.Status.{Status};
ghost use Rattle.mm_run.specs.Answer.{AnswersWhole};
ghost use Rattle.mm_run.specs.Settings.{AskFor, IsThere};

use mm_readable::laws::a_woven_text_is_read_as_its_tree;
use mm_sensible::laws::a_woven_tree_makes_sense;
use mm_sourcelike::laws::{a_source_text_checks_alone, a_source_text_is_sourcelike};
use mm_within::laws::a_woven_tree_passes_no_limit;

/// Words ask for one command at most.
pub fn words_ask_for_one_command()
    ensures { (words : List (List ℕ)) (s t : Settings) → AskFor words s → AskFor words t → s ≡ t }
{}

/// Take a source text that is accepted and within the limits of an event graph, and a shape that fits its goto program. The text that
/// is printed of its woven tree is read as a program: its tree is the woven one but for the places, names and types make sense, and it
/// passes no limit of a woven program.
pub fn a_woven_text_is_accepted()
    ensures { (text : List ℕ) (tree : Tree) (shape : Shape) (head : Head) → IsUtf8 text → length text < 2 ^ 32 →
        IsTreeOf Source text tree → IsAccepted Source tree → limit_passed Source tree ≡ None →
        IsSmall (program_of Source tree) → IsBound shape.bound → Fits (program_of Source tree) shape →
        (u : Tree) × IsTreeOf Output (printed_text (woven (program_of Source tree) shape) head) u
        × (without_places u ≡ without_places (woven (program_of Source tree) shape)) × IsAccepted Output u × (limit_passed Output u ≡ None) }
{
    a_source_text_is_sourcelike();
    a_source_text_checks_alone();
    a_woven_text_is_read_as_its_tree();
    a_woven_tree_makes_sense();
    a_woven_tree_passes_no_limit();
}

/// A command answers each input of at most the greatest length, with one status and one output: both are told by the input alone.
pub fn an_input_has_one_answer()
    ensures answered { (s : Settings) → IsThere s → (input : List ℕ) → length input ≤ MAX_INPUT →
        (status : Status) × (out : List ℕ) × AnswersWhole s input status out }
    ensures one_status { (s : Settings) (input : List ℕ) (a b : Status) (out text : List ℕ) →
        AnswersWhole s input a out → AnswersWhole s input b text → a ≡ b }
    ensures one_output { (s : Settings) (input : List ℕ) (a b : Status) (out text : List ℕ) →
        AnswersWhole s input a out → AnswersWhole s input b text → out ≡ text }
{
    a_woven_text_is_accepted();
}
