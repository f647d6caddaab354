// One term written into a set: set or added under a key; and chains of additions.
#![tactic(auto)]

ghost use Rattle.std.specs.Prelude.{◌≡◌, ◌<◌, ◌≤◌, true, length, map, IfSome};
ghost use Rattle.refusal.specs.Refusals.{said_by, said_done, listed};
ghost use Rattle.terms.specs.Keyed.{held, omitted};
ghost use Rattle.terms.specs.Setting.{most_terms, keyed, added, write, has_room};
ghost use Rattle.term_sets.specs.Sets.{terms, filled, held_by, StandsAt};
ghost use Rattle.term_writing.specs.WritingAnswers.{set_answer, add_answer};
ghost use Rattle.term_writing.specs.Checked.{checked};

pub mod adding;

use complex::coefficient::Coefficient;
use refusal::Refusal;
use term_sets::key::Key;
use term_sets::{Set, Term};
use terms::MOST_TERMS;

// The set without its term at a place: later ones close up.
fn strike<K: Key, N: Coefficient>(s: &mut Set<K, N>, at: usize)
    requires place { at < s.old.count }
    requires few { s.old.count ≤ most_terms }
    requires own { s.old ≡ filled K.keys N.numbers (held_by s.old) }
    ensures { s.new ≡ filled K.keys N.numbers (omitted at (held_by s.old)) }
{
    let count = s.count;
    s.terms.copy_within(at + 1..count, at);
    s.terms[count - 1] = Term::blank();
    s.count = count - 1;
}

// Whether there is room for a coefficient under a key that stands at a place or at none.
pub(crate) fn has_room<K: Key, N: Coefficient>(s: &Set<K, N>, at: Option<usize>, value: N) -> bool
    ensures { (key : K) → StandsAt K.keys N.numbers key (held_by s.now) at → result ≡ has_room (terms K.keys N.numbers) key value (held_by s.now) }
{
    at.is_some() || s.held().len() < MOST_TERMS || value.is_zero()
}

// A coefficient put under a key, which stands at a place or at none: zero removes its term, another one replaces it or comes last.
pub(crate) fn put<K: Key, N: Coefficient>(s: &mut Set<K, N>, at: Option<usize>, key: K, value: N)
    requires few { s.old.count ≤ most_terms }
    requires own { s.old ≡ filled K.keys N.numbers (held_by s.old) }
    requires place { StandsAt K.keys N.numbers key (held_by s.old) at }
    requires room { has_room (terms K.keys N.numbers) key value (held_by s.old) ≡ true }
    ensures { s.new ≡ filled K.keys N.numbers (write (terms K.keys N.numbers) key value (held_by s.old)) }
{
    let term = Term {
        key,
        coefficient: value,
    };
    match (at, value.is_zero()) {
        (Some(i), true) => strike(s, i),
        (Some(i), false) => s.terms[i] = term,
        (None, true) => {}
        (None, false) => {
            let count = s.count;
            s.terms[count] = term;
            s.count = count + 1;
        }
    }
}

// What is judged first of what an entry is given: the set, the key, the coefficient.
fn check<K: Key, N: Coefficient>(
    s: &Set<K, N>,
    zeros: bool,
    key: &K,
    value: N,
) -> Result<(), Refusal>
    ensures { said_done result ≡ checked K.keys N.numbers zeros s.now key.now value }
{
    if !s.is_valid(zeros) {
        return Err(Refusal::Malformed);
    }
    key.check()?;
    if !value.in_range() {
        return Err(Refusal::CoefficientOutOfRange);
    }
    Ok(())
}

// A coefficient set under a key; what was there before is answered.
pub fn set<K: Key, N: Coefficient>(
    s: &mut Set<K, N>,
    zeros: bool,
    key: K,
    value: N,
) -> Result<Option<N>, Refusal>
    ensures { (said_by listed result, s.new) ≡ set_answer K.keys N.numbers zeros s.old key value }
{
    check(s, zeros, &key, value)?;
    let at = s.find(&key);
    if !has_room(s, at, value) {
        return Err(Refusal::SetFull);
    }
    let before = found(s, at);
    put(s, at, key, value);
    Ok(before)
}

// A coefficient added to the one under a key.
pub fn add<K: Key, N: Coefficient>(
    s: &mut Set<K, N>,
    zeros: bool,
    key: K,
    value: N,
) -> Result<(), Refusal>
    ensures { (said_done result, s.new) ≡ add_answer K.keys N.numbers zeros s.old key value }
{
    check(s, zeros, &key, value)?;
    let at = s.find(&key);
    let sum = sum_at(s, at, value);
    if !has_room(s, at, sum) {
        return Err(Refusal::SetFull);
    }
    if !sum.in_range() {
        return Err(Refusal::CoefficientOutOfRange);
    }
    put(s, at, key, sum);
    Ok(())
}

// The coefficient at the place of a key, where it has one.
fn found<K: Key, N: Coefficient>(s: &Set<K, N>, at: Option<usize>) -> Option<N>
    requires { IfSome at (λ i. i < length (held_by s.now)) }
    ensures { (key : K) → StandsAt K.keys N.numbers key (held_by s.now) at → listed result ≡ map (λ t. t.coefficient) (held (keyed (terms K.keys N.numbers) key) (held_by s.now)) }
{
    Some(s.held()[at?].coefficient)
}

// A coefficient added to the one at a place, or to zero.
pub(crate) fn sum_at<K: Key, N: Coefficient>(s: &Set<K, N>, at: Option<usize>, value: N) -> N
    requires { IfSome at (λ i. i < length (held_by s.now)) }
    ensures { (key : K) → StandsAt K.keys N.numbers key (held_by s.now) at → result ≡ added (terms K.keys N.numbers) key value (held_by s.now) }
{
    found(s, at).unwrap_or(N::zero()).sum(value)
}
