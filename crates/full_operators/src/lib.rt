// Noise of two full operators: every pair of a left term and a right one, added to a noise set.
#![tactic(auto)]

ghost use Rattle.std.specs.Prelude.{◌≡◌};
ghost use Rattle.refusal.specs.Refusals.{said_done};
ghost use Rattle.full_operators.specs.FullAnswers.{add_full_operators};

use complex::Complex;
use complex::coefficient::Coefficient;
use operators::DecoherenceOperator;
use refusal::Refusal;
use term_sets::NoiseSet;
use term_sets::key::has_empty_side;
use term_writing::adding::Adding;

// The pairs of two operators' terms, (conjugate of right, times left), times value, added to a noise set; a pair with an empty product is passed over.
#[tactic(auto, unfolding(crate::specs::FullAnswers::add_full_operators))]
pub fn add_full(
    s: &mut NoiseSet,
    left: &DecoherenceOperator,
    right: &DecoherenceOperator,
    value: Complex,
) -> Result<(), Refusal>
    ensures { (said_done result, s.new) ≡ add_full_operators s.old left.now.terms right.now.terms value }
{
    if !s.is_valid(false) || !left.is_valid() || !right.is_valid() {
        return Err(Refusal::Malformed);
    }
    if left.terms.count == 0 || right.terms.count == 0 {
        return Err(Refusal::EmptySide);
    }
    if !value.in_range() {
        return Err(Refusal::CoefficientOutOfRange);
    }
    let mut sum = Adding::to(s);
    for x in left.terms.held() {
        for y in right.terms.held() {
            let key = (x.key, y.key);
            if has_empty_side(&key) {
                continue;
            }
            let rate = y.coefficient.conjugate().product(x.coefficient);
            sum.add(key, rate.product(value))?;
        }
    }
    *s = sum.finished()?;
    Ok(())
}
