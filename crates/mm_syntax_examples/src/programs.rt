use mm_goto::{At, NoMemory};
use mm_lexer::{LexFault, lex};
use mm_parse::{ParseFault, parse};
use mm_tree::{Side, Tree};
use std::alloc::{AllocError, Global};

#[derive(Debug, Drop)]
enum Fail {
    Lexed(LexFault),
    Parsed(ParseFault),
    TooLong,
    NoMemory,
}

impl From<LexFault> for Fail {
    fn from(fault: LexFault) -> Fail {
        Fail::Lexed(fault)
    }
}

impl From<ParseFault> for Fail {
    fn from(fault: ParseFault) -> Fail {
        Fail::Parsed(fault)
    }
}

impl From<NoMemory> for Fail {
    fn from(_: NoMemory) -> Fail {
        Fail::NoMemory
    }
}

impl From<AllocError> for Fail {
    fn from(_: AllocError) -> Fail {
        Fail::NoMemory
    }
}

fn tree_of(alloc: Global, text: &str, side: Side) -> Result<Tree, Fail> {
    if text.len() > 16_777_216 {
        return Err(Fail::TooLong);
    }
    let tokens = lex(alloc, text)?;
    Ok(parse(alloc, text, &tokens, side)?)
}

/// A text of these parts, with the middle one so many times.
fn repeated(
    alloc: Global,
    first: &str,
    middle: &str,
    times: u32,
    last: &str,
) -> Result<String, AllocError> {
    let mut text = String::from_str(alloc, first)?;
    for _ in 0..times {
        text.push_str(middle)?;
    }
    text.push_str(last)?;
    Ok(text)
}

/// A program with every form of items and statements.
const PROGRAM: &str = "int x, *p = &x, a[3] = { 1, -2, 3 }, *q = NULL, y = 0;
static int z = -1;
volatile int v;
static volatile int *w;
int b[2];
int *r = &a[1];
pthread_mutex_t m = PTHREAD_MUTEX_INITIALIZER, n;
static pthread_mutex_t o;
pthread_t t, u;
extern int nondet_in(void);
int nondet_out();
int sum(int k, int *l) { return k + *l; }
int *place(void) { return &x; }
void nothing() { return; }
void *worker(void *arg) { x = 1; return NULL; }
static void *other(void *) { }
void *third(void) { }
static int hidden(int k) { return k; }
int main(void) {
  int i = 0, *j = &x, k;
  volatile int e = sum(1, p);
  pthread_t s, d;
  ;
  { }
  { int c; c = 1; }
  x = 1; a[i] = sum(1, &x); *j = 2; (x) = 3; ((a[0])) = 1;
  x += 1; x <<= 2; x++; --x; ++*j; a[1]--;
  nothing(); sum(1, j);
  x = __sync_fetch_and_add(&x, 1); __sync_fetch_and_add(&x, 1);
  i = __sync_bool_compare_and_swap(&x, 0, 1); __sync_bool_compare_and_swap(&x, 0, 1);
  if (x) y = 1; if (x == 1) y = 1; else if (y) ; else { }
  while (x < 3) x++; do x--; while (x > 0);
  for (i = 0; i < 3; i++) continue; for (;;) break; for (int h = 0; ; ) { break; }
  assert(x == 1); __CPROVER_assert(x > 0, \"text\"); __CPROVER_assume(x);
  __sync_synchronize(); pthread_mutex_lock(&m); pthread_mutex_unlock(&m);
  pthread_create(&t, NULL, worker, 0); pthread_join(t, NULL);
  goto end; end: x = k ? 1 : 2; __CPROVER_atomic_begin(); __CPROVER_atomic_end();
  return 0;
}
";

/// The same program with other blanks, comments and parentheses.
const SPELLED: &str = "int x,*p=&x,a[3]={1,-2,3},*q=NULL,y=0;static int z=- 1;volatile int v;
static volatile int*w;int b[2];int*r=&a[1];pthread_mutex_t m=PTHREAD_MUTEX_INITIALIZER,n;
static pthread_mutex_t o;pthread_t t,u;int nondet_in();extern int nondet_out(void);
int sum(int k,int*l){return(k+*l);}int*place(){return&x;}void nothing(void){return;}
void*worker(void*arg){x=1;return(NULL);}static void*other(void*){}void*third(){}
static int hidden(int k){return k;}/* the last */int main(){int i=0,*j=&x,k;
volatile int e=sum(1,(p));pthread_t s,d;;{}{int c;c=(1);}x=1;a[i]=sum(1,&x);*j=2;x=3;a[0]=1;
x+=1;x<<=2;++x;x--;++*j;--a[1];nothing();sum(1,j);x=__sync_fetch_and_add(&x,1);
__sync_fetch_and_add(&x,1);i=__sync_bool_compare_and_swap(&x,0,1);
__sync_bool_compare_and_swap(&x,0,1);if(x)y=1;if(x==1)y=1;else if(y);else{}
while(x<3)++x;do--x;while(x>0);for(i=0;i<3;++i)continue;for(;1;)break;
for(int h=0;1;){break;}assert((x==1));__CPROVER_assert(x>0,\"text\");__CPROVER_assume(x);
__sync_synchronize();pthread_mutex_lock(&m);pthread_mutex_unlock(&m);
pthread_create(&t,0,worker,NULL);pthread_join(t,0);goto end;end:x=k?1:2; // the choice
__CPROVER_atomic_begin();__CPROVER_atomic_end();return 0;}";

#[test]
fn reads_every_form(rt: HostRuntime) -> Result<(), Fail> {
    let alloc = rt.alloc();
    let tree = tree_of(alloc, PROGRAM, Side::Source)?;
    let other = tree_of(alloc, PROGRAM, Side::Output)?;
    let spelled = tree_of(alloc, SPELLED, Side::Output)?;
    assert_eq!(rt; tree.items.items().len(), 19);
    assert!(rt; tree.same(&other));
    assert!(rt; tree.same(&spelled));
    assert!(rt; spelled.same(&tree));
    assert!(rt; tree.copy(alloc)?.same(&tree));
    Ok(())
}

#[test]
fn tells_trees_apart(rt: HostRuntime) -> Result<(), Fail> {
    let alloc = rt.alloc();
    let text = "int main() { if (x) if (y) ; else x = 1; }";
    let tree = tree_of(alloc, text, Side::Source)?;
    let inner = "int main() { if (x) { if (y) ; else x = 1; } }";
    assert!(rt; !tree.same(&tree_of(alloc, inner, Side::Source)?));
    let outer = "int main() { if (x) if (y) ; else y = 1; }";
    assert!(rt; !tree.same(&tree_of(alloc, outer, Side::Source)?));
    let empty = tree_of(alloc, " /* nothing */ ", Side::Source)?;
    assert_eq!(rt; empty.items.items().len(), 0);
    Ok(())
}

/// Outputs that are no programs, each with the column of its fault, and with the word or mark there that the profile has
/// not, if it is one.
const REFUSALS: [(&str, u32, &str); 5] = [
    ("int *a [3];", 8, ""),
    ("int main() { x = f() + 1; }", 22, ""),
    ("int x float", 7, "float"),
    ("int main() { x->y = 1; }", 15, "->"),
    ("int main() { x = 1;", 20, ""),
];

fn is_refused(read: Result<Tree, Fail>, column: u32, word: &str) -> bool {
    match read {
        Err(Fail::Parsed(ParseFault::BadSyntax(at))) => {
            word.is_empty() && at == At { line: 1, column }
        }
        Err(Fail::Parsed(ParseFault::OutsideProfile(found, at))) => {
            found.text() == word && at == At { line: 1, column }
        }
        _ => false,
    }
}

#[test]
fn an_output_is_refused_at_its_first_fault(rt: HostRuntime) {
    let alloc = rt.alloc();
    for (text, column, word) in REFUSALS {
        let read = tree_of(alloc, text, Side::Output);
        assert!(rt; is_refused(read, column, word), "{text}");
    }
}

fn is_too_deep_at(read: Result<Tree, Fail>, column: u32) -> bool {
    match read {
        Err(Fail::Parsed(ParseFault::TooDeep(at))) => at == At { line: 1, column },
        _ => false,
    }
}

#[test]
fn an_output_has_limits_of_its_own(rt: HostRuntime) -> Result<(), Fail> {
    let alloc = rt.alloc();
    let text = repeated(alloc, "int main() { x = 1", " + 1", 99, "; }")?;
    assert!(rt; tree_of(alloc, text.as_str(), Side::Output).is_ok());
    let text = repeated(alloc, "int main() { ", "if(1);else ", 201, "; }")?;
    assert!(rt; is_too_deep_at(tree_of(alloc, text.as_str(), Side::Output), 2220));
    Ok(())
}
