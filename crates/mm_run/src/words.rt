ghost use Rattle.std.specs.Prelude.{◌≡◌, map, string_bytes, IfSome, None};
ghost use Rattle.mm_run.specs.declared.command.Settings.{Settings as Command};
ghost use Rattle.mm_run.specs.Settings.{AskFor};
ghost use Rattle.mm_run.specs.reading.Words.{bound_of, command_of, model_of, settings_of, with_bound, without_bound};

use crate::command::Settings;
use mm_goto::{Bound, Model};

// One digit, 1 to 8.
fn bound_of(word: &str) -> Option<Bound>
    ensures { result ≡ bound_of word.now }
{
    match word {
        "1" => Bound::new(1),
        "2" => Bound::new(2),
        "3" => Bound::new(3),
        "4" => Bound::new(4),
        "5" => Bound::new(5),
        "6" => Bound::new(6),
        "7" => Bound::new(7),
        "8" => Bound::new(8),
        _ => None,
    }
}

fn model_of(word: &str) -> Option<Model>
    ensures { result ≡ model_of word.now }
{
    match word {
        "tso" => Some(Model::Tso),
        "pso" => Some(Model::Pso),
        _ => None,
    }
}

fn command_of(word: &str, model: Model, bound: Bound) -> Option<Settings>
    ensures { result ≡ command_of word.now model bound }
{
    match word {
        "instrument" => Some(Settings::Instrument(model, bound)),
        "cycles" => Some(Settings::Cycles(model, bound)),
        "replay" => Some(Settings::Replay(model, bound)),
        _ => None,
    }
}

fn with_bound(command: &str, mm: &str, model: &str, bound: &str, number: &str) -> Option<Settings>
    ensures { result ≡ with_bound command.now mm.now model.now bound.now number.now }
{
    if mm == "--mm" && bound == "--bound" {
        command_of(command, model_of(model)?, bound_of(number)?)
    } else {
        None
    }
}

fn without_bound(command: &str, mm: &str, model: &str) -> Option<Settings>
    ensures { result ≡ without_bound command.now mm.now model.now }
{
    if command == "replay" && mm == "--mm" && model == "sc" {
        Some(Settings::ReplaySc)
    } else {
        None
    }
}

fn read_words(words: &[String]) -> Option<Settings>
    ensures { result ≡ settings_of (map string_bytes words.now) }
{
    match words {
        [command, mm, model, bound, number] => with_bound(command, mm, model, bound, number),
        [command, mm, model] => without_bound(command, mm, model),
        _ => None,
    }
}

/// What the words ask for, where they have the shape of a command.
#[tactic(auto, using(crate::proofs::Wording::asked, crate::proofs::Wording::not_asked))]
pub fn settings(words: &[String]) -> Option<Settings>
    ensures some { IfSome result (AskFor (map string_bytes words.now)) }
    ensures none { result ≡ None → (s : Command) → AskFor (map string_bytes words.now) s → ⊥ }
{
    read_words(words)
}
