// Chains of additions, which multiplying, conjugating and converting sets of terms are; and scaling, which keeps zeros.
ghost use Rattle.std.specs.Prelude.{◌≡◌, ◌<◌, ◌≤◌, true, not, [], map, length};
ghost use Rattle.refusal.specs.Refusals.{gives, said_done};
ghost use Rattle.letters.specs.Matrices.{letters_of};
ghost use Rattle.letters.specs.Answers.{other};
ghost use Rattle.terms.specs.Keyed.{has, each};
ghost use Rattle.terms.specs.Setting.{most_terms, keyed, add_all};
ghost use Rattle.term_sets.specs.Complexes.{TermSet, held_by, filled, complex_terms};
ghost use Rattle.chains.specs.ChainAnswers.{told, ended, product_steps, keep_term, multiply_sets, conjugate_set, convert_set, scale_set};

use complex::Complex;
use complex::coefficient::Coefficient;
use items::Items;
use letters::Kind;
use refusal::Refusal;
use term_sets::{Term, TermSet};
use term_writing::adding::Adding;

// The products of all pairs of terms, added up.
pub(crate) fn multiplied(kind: Kind, s: &TermSet, t: &TermSet) -> Result<TermSet, Refusal>
    ensures { (back : TermSet) → told back result ≡ ended back (add_all complex_terms (product_steps (letters_of kind) (held_by s.now) (held_by t.now)) []) }
{
    let mut sum = Adding::new();
    for x in s.held() {
        for y in t.held() {
            let z = merging::multiply::multiply(kind, &x.key, &y.key)?;
            let value = y.coefficient.product(complex::unit_of_i(z.power));
            sum.add(z.items, value.product(x.coefficient))?;
        }
    }
    sum.finished()
}

// The product of two sets of one kind.
#[tactic(auto, unfolding(crate::specs::ChainAnswers::multiply_sets))]
pub fn multiply(kind: Kind, zeros: bool, s: &TermSet, t: &TermSet) -> Result<TermSet, Refusal>
    ensures { told s.now result ≡ multiply_sets (letters_of kind) zeros s.now t.now }
{
    if !s.is_valid(zeros) || !t.is_valid(zeros) {
        return Err(Refusal::Malformed);
    }
    multiplied(kind, s, t)
}

// One term more, under a key that no other one has: its coefficient is added to zero, and a zero is not held.
#[tactic(auto, unfolding(crate::specs::ChainAnswers::keep_term))]
fn keep(out: &mut TermSet, key: &Items, value: Complex) -> Result<(), Refusal>
    requires room { out.old.count < most_terms }
    requires own { out.old ≡ filled (held_by out.old) }
    ensures { (said_done result, out.new) ≡ keep_term key.now value out.old }
{
    let sum = Complex::zero().sum(value);
    if sum.is_zero() {
        return Ok(());
    }
    if !sum.in_range() {
        return Err(Refusal::CoefficientOutOfRange);
    }
    out.terms[out.count] = Term {
        key: *key,
        coefficient: sum,
    };
    out.count += 1;
    Ok(())
}

// Terms whose keys differ, added to nothing.
pub(crate) fn collected(s: &TermSet) -> Result<TermSet, Refusal>
    requires few { length (held_by s.now) ≤ most_terms }
    requires differ { each (λ t ts. not (has (keyed complex_terms t.key) ts)) (held_by s.now) ≡ true }
    ensures { (back : TermSet) → told back result ≡ ended back (add_all complex_terms (map gives (held_by s.now)) []) }
{
    let mut out = TermSet::new();
    for x in s.held() {
        keep(&mut out, &x.key, x.coefficient)?;
    }
    Ok(out)
}

// The conjugate transpose of a set.
#[tactic(auto, unfolding(crate::specs::ChainAnswers::conjugate_set))]
pub fn conjugate(kind: Kind, zeros: bool, s: &TermSet) -> Result<TermSet, Refusal>
    ensures { told s.now result ≡ conjugate_set (letters_of kind) zeros s.now }
{
    if !s.is_valid(zeros) {
        return Err(Refusal::Malformed);
    }
    let mut out = TermSet::new();
    for x in s.held() {
        let z = phases::conjugate(kind, &x.key)?;
        let unit = complex::unit_of_i(z.power);
        keep(&mut out, &z.items, x.coefficient.conjugate().product(unit))?;
    }
    Ok(out)
}

// A set in letters of the other kind.
#[tactic(auto, unfolding(crate::specs::ChainAnswers::convert_set))]
pub fn convert(kind: Kind, zeros: bool, s: &TermSet) -> Result<TermSet, Refusal>
    ensures { told (filled []) result ≡ convert_set (letters_of kind) (letters_of (other kind)) zeros s.now }
{
    if !s.is_valid(zeros) {
        return Err(Refusal::Malformed);
    }
    let mut out = TermSet::new();
    for x in s.held() {
        let z = phases::convert(kind, &x.key)?;
        let unit = complex::unit_of_i(z.power);
        keep(&mut out, &z.items, x.coefficient.product(unit))?;
    }
    Ok(out)
}

// Every coefficient times a number; terms that become zero stay.
#[tactic(auto, unfolding(crate::specs::ChainAnswers::scale_set))]
pub fn scale(s: &TermSet, value: Complex) -> Result<TermSet, Refusal>
    ensures { told s.now result ≡ scale_set s.now value }
{
    if !s.is_valid(true) {
        return Err(Refusal::Malformed);
    }
    if !value.in_range() {
        return Err(Refusal::CoefficientOutOfRange);
    }
    let mut out = TermSet::new();
    for x in s.held() {
        let coefficient = x.coefficient.product(value);
        if !coefficient.in_range() {
            return Err(Refusal::CoefficientOutOfRange);
        }
        out.terms[out.count] = Term {
            key: x.key,
            coefficient,
        };
        out.count += 1;
    }
    Ok(out)
}
