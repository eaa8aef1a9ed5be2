//! What holds of all texts.
ghost use Rattle.std.specs.Prelude.{◌≡◌, ◌⊎◌, ℕ, List};
ghost use Rattle.mm_lexer.specs.declared.token.LexFault.{LexFault};
ghost use Rattle.mm_lexer.specs.declared.token.Token.{Token};
ghost use Rattle.mm_lexer.specs.Tokens.{AreTokens, IsFirstFault};

/// Every text is tokens or has a first fault, one of the two and in one way.
pub fn a_text_is_cut_in_one_way()
    ensures one_list { (text : List ℕ) (ts us : List Token) → AreTokens text ts → AreTokens text us → ts ≡ us }
    ensures one_fault { (text : List ℕ) (e f : LexFault) → IsFirstFault text e → IsFirstFault text f → e ≡ f }
    ensures not_both { (text : List ℕ) (ts : List Token) (f : LexFault) → AreTokens text ts → IsFirstFault text f → ⊥ }
    ensures one_of_them { (text : List ℕ) →
        ((ts : List Token) × AreTokens text ts) ⊎ ((f : LexFault) × IsFirstFault text f) }
{}
