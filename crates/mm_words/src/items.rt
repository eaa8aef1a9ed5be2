ghost use Rattle.std.specs.Prelude.{◌≡◌, ◌<◌, ◌^◌, ◌++◌, ◌∷◌, [], Some, None, IfOk};
ghost use Rattle.mm_words.specs.Words as words;
ghost use Rattle.mm_tree.specs.Places.{nowhere};
ghost use Rattle.mm_tree.specs.Trees as tree;

use crate::lists::add;
use crate::names::word;
use mm_goto::{At, Ident, List, NoMemory};
use mm_tree::{self, Expr, Gives, Item, Param, Stmt, Word};
use sqlite_items::Boxed;
use std::alloc::Global;

// ---- variables

// One name in a list of its own.
fn one_word(alloc: Global, name: &str) -> Result<List<Word>, NoMemory>
    ensures { IfOk result (λ ws. ws ≡ words.word name.now ∷ []) }
{
    let mut names = Vec::new(alloc);
    names.push(word(Ident::copy_of(alloc, name)?))?;
    Ok(List::new(names))
}

// One variable that is declared.
fn one_global(
    alloc: Global,
    pointer: bool,
    name: &str,
    len: Option<i32>,
    init: Vec<Expr>,
) -> Result<Boxed<Item>, NoMemory>
    ensures { IfOk result (λ item. item ≡ Item.Globals (tree.global nowhere pointer name.now len init.items ∷ [])) }
{
    let name = Ident::copy_of(alloc, name)?;
    let mut globals = Vec::new(alloc);
    globals.push(mm_tree::Global {
        at: At::start(),
        pointer,
        name,
        len,
        init: List::new(init),
    })?;
    Ok(Boxed::new(alloc, Item::Globals(List::new(globals)))?)
}

// One start value.
fn one_value(alloc: Global, value: Boxed<Expr>) -> Result<Vec<Expr>, NoMemory>
    ensures { IfOk result (λ es. es.items ≡ value ∷ []) }
{
    let mut values = Vec::new(alloc);
    add(&mut values, value)?;
    Ok(values)
}

/// `int x = e;`
pub fn variable_item(alloc: Global, name: &str, value: Boxed<Expr>) -> Result<Boxed<Item>, NoMemory>
    ensures { IfOk result (λ item. item ≡ words.global name.now None (value ∷ [])) }
{
    one_global(alloc, false, name, None, one_value(alloc, value)?)
}

/// `int *x = e;`
pub fn pointer_item(alloc: Global, name: &str, value: Boxed<Expr>) -> Result<Boxed<Item>, NoMemory>
    ensures { IfOk result (λ item. item ≡ words.global_pointer name.now value) }
{
    one_global(alloc, true, name, None, one_value(alloc, value)?)
}

/// `int x[n] = {..};`, or `int x[n];` where there is no start value.
pub fn array_item(
    alloc: Global,
    name: &str,
    len: u32,
    values: Vec<Expr>,
) -> Result<Boxed<Item>, NoMemory>
    requires { len < 2 ^ 31 }
    ensures { IfOk result (λ item. item ≡ words.global name.now (Some len) values.items) }
{
    one_global(alloc, false, name, Some(len.cast_signed()), values)
}

/// `pthread_mutex_t m = PTHREAD_MUTEX_INITIALIZER;`
pub fn mutex_item(alloc: Global, name: &str) -> Result<Boxed<Item>, NoMemory>
    ensures { IfOk result (λ item. item ≡ words.mutex name.now) }
{
    let names = one_word(alloc, name)?;
    Ok(Boxed::new(alloc, Item::Mutexes(names))?)
}

/// `pthread_t t;`
pub fn thread_variable_item(alloc: Global, name: &str) -> Result<Boxed<Item>, NoMemory>
    ensures { IfOk result (λ item. item ≡ words.thread_variable name.now) }
{
    let names = one_word(alloc, name)?;
    Ok(Boxed::new(alloc, Item::Threads(names))?)
}

// ---- functions

/// `int f();`
pub fn input_item(alloc: Global, name: &str) -> Result<Boxed<Item>, NoMemory>
    ensures { IfOk result (λ item. item ≡ words.input name.now) }
{
    let name = Ident::copy_of(alloc, name)?;
    Ok(Boxed::new(alloc, Item::InputDecl(At::start(), name))?)
}

/// Puts an int parameter at the end.
pub fn add_parameter(alloc: Global, to: &mut Vec<Param>, name: &str) -> Result<(), NoMemory>
    ensures { IfOk result (λ u. to.new.items ≡ to.old.items ++ words.param name.now ∷ []) }
{
    let name = word(Ident::copy_of(alloc, name)?);
    Ok(to.push(Param {
        pointer: false,
        name,
    })?)
}

/// Puts a pointer parameter at the end.
pub fn add_pointer_parameter(alloc: Global, to: &mut Vec<Param>, name: &str) -> Result<(), NoMemory>
    ensures { IfOk result (λ u. to.new.items ≡ to.old.items ++ words.pointer_param name.now ∷ []) }
{
    let name = word(Ident::copy_of(alloc, name)?);
    Ok(to.push(Param {
        pointer: true,
        name,
    })?)
}

/// A function.
pub fn function_item(
    alloc: Global,
    gives: Gives,
    name: &str,
    params: Vec<Param>,
    body: Vec<Stmt>,
) -> Result<Boxed<Item>, NoMemory>
    ensures { IfOk result (λ item. item ≡ words.function gives name.now params.items body.items) }
{
    let name = Ident::copy_of(alloc, name)?;
    let item = Item::Function {
        at: At::start(),
        gives,
        name,
        params: List::new(params),
        body: List::new(body),
    };
    Ok(Boxed::new(alloc, item)?)
}

/// `void *f(void *x) { .. }`
pub fn thread_item(
    alloc: Global,
    name: &str,
    parameter: &str,
    body: Vec<Stmt>,
) -> Result<Boxed<Item>, NoMemory>
    ensures { IfOk result (λ item. item ≡ words.thread name.now parameter.now body.items) }
{
    let mut params = Vec::new(alloc);
    add_pointer_parameter(alloc, &mut params, parameter)?;
    function_item(alloc, Gives::Thread, name, params, body)
}
