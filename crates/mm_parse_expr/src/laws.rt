//! What the grammar of expressions says.
ghost use Rattle.std.specs.Prelude.{◌≡◌, ◌≢◌, ℕ, true, false, List};
ghost use Rattle.mm_goto.specs.Names.{is_word};
ghost use Rattle.mm_tree.specs.declared.expr.Expr.{Expr};
ghost use Rattle.mm_parse_expr.specs.declared.symbol.Symbol.TheVariants.{Name};
ghost use Rattle.mm_parse_expr.specs.declared.terminal.Terminal.{Terminal};
ghost use Rattle.mm_parse_expr.specs.Grammar.{IsExpression, IsUnaryExpression};
ghost use Rattle.mm_parse_expr.specs.Symbols.{word_symbol};

/// The tokens of an expression tell its tree.
pub fn one_tree()
    ensures expr { (ts : List Terminal) (e f : Expr) → IsExpression ts e → IsExpression ts f → e ≡ f }
    ensures unary { (ts : List Terminal) (e f : Expr) → IsUnaryExpression ts e → IsUnaryExpression ts f → e ≡ f }
{}

/// A word is a name exactly where it is none that the profile keeps for itself and none of C that it has not.
pub fn names_are_no_words()
    ensures name { (w : List ℕ) → is_word w ≡ false → word_symbol w ≡ Name }
    ensures word { (w : List ℕ) → is_word w ≡ true → word_symbol w ≢ Name }
{}
