ghost use Rattle.std.specs.Prelude.{◌≡◌};
ghost use Rattle.mm_print.specs.Pieces.{keyword_text, operator_text, mark_text, sign_of};

use mm_goto::{Binary, Unary};
use mm_parse_expr::Keyword;

/// The mark of an operator before its operand.
pub fn unary_text(op: Unary) -> &'static str
    ensures { result.now ≡ mark_text (sign_of op) }
{
    match op {
        Unary::Neg => "-",
        Unary::Plus => "+",
        Unary::Not => "!",
        Unary::Flip => "~",
    }
}

/// The mark of an operator between its operands.
pub fn operator_text(op: Binary) -> &'static str
    ensures { result.now ≡ operator_text op }
{
    match op {
        Binary::Add => "+",
        Binary::Sub => "-",
        Binary::Mul => "*",
        Binary::Div => "/",
        Binary::Rem => "%",
        Binary::Shl => "<<",
        Binary::Shr => ">>",
        Binary::Lt => "<",
        Binary::Le => "<=",
        Binary::Gt => ">",
        Binary::Ge => ">=",
        Binary::Eq => "==",
        Binary::Ne => "!=",
        Binary::And => "&",
        Binary::Xor => "^",
        Binary::Or => "|",
        Binary::Land => "&&",
        Binary::Lor => "||",
    }
}

/// A word of the profile.
#[tactic(auto, unfolding(crate::specs::Pieces::keyword_text))]
pub fn keyword_text(word: Keyword) -> &'static str
    ensures { result.now ≡ keyword_text word }
{
    match word {
        Keyword::Int => "int",
        Keyword::Void => "void",
        Keyword::Static => "static",
        Keyword::Volatile => "volatile",
        Keyword::Extern => "extern",
        Keyword::If => "if",
        Keyword::Else => "else",
        Keyword::While => "while",
        Keyword::Do => "do",
        Keyword::For => "for",
        Keyword::Break => "break",
        Keyword::Continue => "continue",
        Keyword::Return => "return",
        Keyword::Goto => "goto",
        Keyword::Assert => "assert",
        Keyword::Thread => "pthread_t",
        Keyword::Mutex => "pthread_mutex_t",
        Keyword::MutexInitializer => "PTHREAD_MUTEX_INITIALIZER",
        Keyword::Create => "pthread_create",
        Keyword::Join => "pthread_join",
        Keyword::Lock => "pthread_mutex_lock",
        Keyword::Unlock => "pthread_mutex_unlock",
        Keyword::Synchronize => "__sync_synchronize",
        Keyword::FetchAndAdd => "__sync_fetch_and_add",
        Keyword::CompareAndSwap => "__sync_bool_compare_and_swap",
        Keyword::Assume => "__CPROVER_assume",
        Keyword::ProverAssert => "__CPROVER_assert",
        Keyword::AtomicBegin => "__CPROVER_atomic_begin",
        Keyword::AtomicEnd => "__CPROVER_atomic_end",
    }
}
