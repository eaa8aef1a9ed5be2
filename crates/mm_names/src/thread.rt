//! Starts and joins of threads, by what stands before each.
ghost use Rattle.std.specs.Prelude.{◌≡◌, length};
ghost use Rattle.std.specs.List.{list_any};
ghost use Rattle.mm_names.specs.Least.{IsLeastOf, IsBelow};
ghost use Rattle.mm_names.specs.Threads.{starts, are_same, is_of_one, is_start_of, is_join_of, is_misused, IsMisuse};

use mm_scope::{Fault, Rule, ThreadUse, lesser};

fn starts(thread: &ThreadUse<'_>) -> bool
    ensures { result ≡ starts thread.now }
{
    thread.function.is_some()
}

fn are_same(a: bool, b: bool) -> bool
    ensures { result ≡ are_same a b }
{
    if a { b } else { !b }
}

fn is_of_one(one: &ThreadUse<'_>, other: &ThreadUse<'_>) -> bool
    ensures { result ≡ is_of_one one.now other.now }
{
    are_same(one.local, other.local) && one.variable.text() == other.variable.text()
}

#[tactic(auto, unfolding(crate::specs::Threads::is_start_of))]
fn is_start_of(one: &ThreadUse<'_>, other: &ThreadUse<'_>) -> bool
    ensures { result ≡ is_start_of one.now other.now }
{
    is_of_one(one, other) && starts(other)
}

#[tactic(auto, unfolding(crate::specs::Threads::is_join_of))]
fn is_join_of(one: &ThreadUse<'_>, other: &ThreadUse<'_>) -> bool
    ensures { result ≡ is_join_of one.now other.now }
{
    is_of_one(one, other) && !starts(other)
}

fn is_started_in(before: &[ThreadUse<'_>], thread: &ThreadUse<'_>) -> bool
    ensures { result ≡ list_any (is_start_of thread.now) before.now }
{
    before.iter().any(|other| is_start_of(thread, other))
}

fn is_joined_in(before: &[ThreadUse<'_>], thread: &ThreadUse<'_>) -> bool
    ensures { result ≡ list_any (is_join_of thread.now) before.now }
{
    before.iter().any(|other| is_join_of(thread, other))
}

#[tactic(auto, unfolding(crate::specs::Threads::is_misused))]
fn is_misused(before: &[ThreadUse<'_>], thread: &ThreadUse<'_>) -> bool
    ensures { result ≡ is_misused before.now thread.now }
{
    if starts(thread) {
        is_started_in(before, thread)
    } else {
        !is_started_in(before, thread) || is_joined_in(before, thread)
    }
}

/// The least fault of a thread that is started or joined twice, or joined before it is started.
pub fn least_misuse(uses: &[ThreadUse<'_>]) -> Option<Fault>
    ensures { IsLeastOf (IsBelow (IsMisuse uses.now) (length uses.now)) result }
{
    let mut least = None;
    for (index, thread) in uses.iter().enumerate() {
        if is_misused(&uses[..index], thread) {
            least = lesser(
                least,
                Fault {
                    rule: Rule::BadThread,
                    at: thread.at,
                },
            );
        }
    }
    least
}
