//! What a token is for the grammar.
ghost use Rattle.std.specs.Prelude.{◌≡◌, map};
ghost use Rattle.mm_parse_expr.specs.Symbols as spec;

use mm_goto::Binary;
use mm_lexer::TokenKind;

/// A word of the profile, but for `NULL`.
#[derive(Clone, Copy, Debug, PartialEq, Eq)]
pub enum Keyword {
    Int,
    Void,
    Static,
    Volatile,
    Extern,
    If,
    Else,
    While,
    Do,
    For,
    Break,
    Continue,
    Return,
    Goto,
    Assert,
    Thread,
    Mutex,
    MutexInitializer,
    Create,
    Join,
    Lock,
    Unlock,
    Synchronize,
    FetchAndAdd,
    CompareAndSwap,
    Assume,
    ProverAssert,
    AtomicBegin,
    AtomicEnd,
}

/// What a token is for the grammar. The marks that stand between the operands of an expression are operators, also where
/// they stand before one, as in `-x`, `*p` and `&x`.
#[derive(Clone, Copy, Debug, PartialEq, Eq)]
pub enum Symbol {
    /// A name that can be declared.
    Name,
    Number(i32),
    /// A text between quotes.
    Text,
    /// `NULL`.
    Null,
    Keyword(Keyword),
    /// A word or a mark of C that the profile has not.
    Outside,
    Operator(Binary),
    /// An operator with `=` behind it, as `+=`.
    Update(Binary),
    /// `++`.
    Increment,
    /// `--`.
    Decrement,
    /// `!`.
    Not,
    /// `~`.
    Flip,
    /// `=`.
    Assign,
    Question,
    Colon,
    Semicolon,
    Comma,
    /// `(`.
    Open,
    /// `)`.
    Close,
    OpenBracket,
    CloseBracket,
    OpenBrace,
    CloseBrace,
}

/// The words that are no names, and what each is.
pub const WORDS: [(&[u8], Symbol); 52] = [
    (b"int", Symbol::Keyword(Keyword::Int)),
    (b"void", Symbol::Keyword(Keyword::Void)),
    (b"static", Symbol::Keyword(Keyword::Static)),
    (b"volatile", Symbol::Keyword(Keyword::Volatile)),
    (b"extern", Symbol::Keyword(Keyword::Extern)),
    (b"if", Symbol::Keyword(Keyword::If)),
    (b"else", Symbol::Keyword(Keyword::Else)),
    (b"while", Symbol::Keyword(Keyword::While)),
    (b"do", Symbol::Keyword(Keyword::Do)),
    (b"for", Symbol::Keyword(Keyword::For)),
    (b"break", Symbol::Keyword(Keyword::Break)),
    (b"continue", Symbol::Keyword(Keyword::Continue)),
    (b"return", Symbol::Keyword(Keyword::Return)),
    (b"goto", Symbol::Keyword(Keyword::Goto)),
    (b"NULL", Symbol::Null),
    (b"assert", Symbol::Keyword(Keyword::Assert)),
    (b"pthread_t", Symbol::Keyword(Keyword::Thread)),
    (b"pthread_mutex_t", Symbol::Keyword(Keyword::Mutex)),
    (
        b"PTHREAD_MUTEX_INITIALIZER",
        Symbol::Keyword(Keyword::MutexInitializer),
    ),
    (b"pthread_create", Symbol::Keyword(Keyword::Create)),
    (b"pthread_join", Symbol::Keyword(Keyword::Join)),
    (b"pthread_mutex_lock", Symbol::Keyword(Keyword::Lock)),
    (b"pthread_mutex_unlock", Symbol::Keyword(Keyword::Unlock)),
    (b"__sync_synchronize", Symbol::Keyword(Keyword::Synchronize)),
    (
        b"__sync_fetch_and_add",
        Symbol::Keyword(Keyword::FetchAndAdd),
    ),
    (
        b"__sync_bool_compare_and_swap",
        Symbol::Keyword(Keyword::CompareAndSwap),
    ),
    (b"__CPROVER_assume", Symbol::Keyword(Keyword::Assume)),
    (b"__CPROVER_assert", Symbol::Keyword(Keyword::ProverAssert)),
    (
        b"__CPROVER_atomic_begin",
        Symbol::Keyword(Keyword::AtomicBegin),
    ),
    (b"__CPROVER_atomic_end", Symbol::Keyword(Keyword::AtomicEnd)),
    (b"auto", Symbol::Outside),
    (b"case", Symbol::Outside),
    (b"char", Symbol::Outside),
    (b"const", Symbol::Outside),
    (b"default", Symbol::Outside),
    (b"double", Symbol::Outside),
    (b"enum", Symbol::Outside),
    (b"float", Symbol::Outside),
    (b"inline", Symbol::Outside),
    (b"long", Symbol::Outside),
    (b"register", Symbol::Outside),
    (b"restrict", Symbol::Outside),
    (b"short", Symbol::Outside),
    (b"signed", Symbol::Outside),
    (b"sizeof", Symbol::Outside),
    (b"struct", Symbol::Outside),
    (b"switch", Symbol::Outside),
    (b"typedef", Symbol::Outside),
    (b"union", Symbol::Outside),
    (b"unsigned", Symbol::Outside),
    (b"_Bool", Symbol::Outside),
    (b"_Atomic", Symbol::Outside),
];

/// The marks, and what each is.
pub const MARKS: [(&[u8], Symbol); 45] = [
    (b"<<=", Symbol::Update(Binary::Shl)),
    (b">>=", Symbol::Update(Binary::Shr)),
    (b"++", Symbol::Increment),
    (b"--", Symbol::Decrement),
    (b"+=", Symbol::Update(Binary::Add)),
    (b"-=", Symbol::Update(Binary::Sub)),
    (b"*=", Symbol::Update(Binary::Mul)),
    (b"/=", Symbol::Update(Binary::Div)),
    (b"%=", Symbol::Update(Binary::Rem)),
    (b"&=", Symbol::Update(Binary::And)),
    (b"|=", Symbol::Update(Binary::Or)),
    (b"^=", Symbol::Update(Binary::Xor)),
    (b"&&", Symbol::Operator(Binary::Land)),
    (b"||", Symbol::Operator(Binary::Lor)),
    (b"==", Symbol::Operator(Binary::Eq)),
    (b"!=", Symbol::Operator(Binary::Ne)),
    (b"<=", Symbol::Operator(Binary::Le)),
    (b">=", Symbol::Operator(Binary::Ge)),
    (b"<<", Symbol::Operator(Binary::Shl)),
    (b">>", Symbol::Operator(Binary::Shr)),
    (b"->", Symbol::Outside),
    (b"+", Symbol::Operator(Binary::Add)),
    (b"-", Symbol::Operator(Binary::Sub)),
    (b"*", Symbol::Operator(Binary::Mul)),
    (b"/", Symbol::Operator(Binary::Div)),
    (b"%", Symbol::Operator(Binary::Rem)),
    (b"&", Symbol::Operator(Binary::And)),
    (b"|", Symbol::Operator(Binary::Or)),
    (b"^", Symbol::Operator(Binary::Xor)),
    (b"~", Symbol::Flip),
    (b"!", Symbol::Not),
    (b"<", Symbol::Operator(Binary::Lt)),
    (b">", Symbol::Operator(Binary::Gt)),
    (b"=", Symbol::Assign),
    (b"?", Symbol::Question),
    (b":", Symbol::Colon),
    (b";", Symbol::Semicolon),
    (b",", Symbol::Comma),
    (b"(", Symbol::Open),
    (b")", Symbol::Close),
    (b"[", Symbol::OpenBracket),
    (b"]", Symbol::CloseBracket),
    (b"{", Symbol::OpenBrace),
    (b"}", Symbol::CloseBrace),
    (b".", Symbol::Outside),
];

fn lookup(mut table: &[(&[u8], Symbol)], word: &[u8], other: Symbol) -> Symbol
    ensures { result ≡ spec.lookup (map (λ entry. (entry.0.now, entry.1)) table.entry.now) word.now other }
{
    while let [entry, rest @ ..] = table {
        if entry.0 == word {
            return entry.1;
        }
        table = rest;
    }
    other
}

/// The symbol that a token of this kind with these bytes is.
#[tactic(auto, unfolding(crate::specs::Symbols::word_symbol, crate::specs::Symbols::mark_symbol))]
pub fn symbol_of(kind: TokenKind, bytes: &[u8]) -> Symbol
    ensures { result ≡ spec.symbol_of kind bytes.now }
{
    match kind {
        TokenKind::Name => lookup(&WORDS, bytes, Symbol::Name),
        TokenKind::Number(n) => Symbol::Number(n),
        TokenKind::Text => Symbol::Text,
        TokenKind::Mark => lookup(&MARKS, bytes, Symbol::Outside),
    }
}
