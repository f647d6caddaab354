// Whether number 0 lets a set pass: its held terms, and the zero records past them; and of a valid one the masks and the coefficients of its terms.
ghost use Rattle.std.specs.Prelude.{◌≡◌, ◌≤◌, MatchOption, true, false, map, length, drop};
ghost use Rattle.term_sets.specs.Sets.{held_by, good_coefficient, good_term, is_blank, valid_set, masked_terms, masked_set};
ghost use Rattle.terms.specs.Keyed.{each};
ghost use Rattle.terms.specs.Setting.{most_terms};

use crate::key::Key;
use crate::masks::Masks;
use crate::seen::Seen;
use crate::{Set, Term, places};
use arrayvec::ArrayVec;
use complex::coefficient::Coefficient;
use terms::MOST_TERMS;

// What a row needs of a term.
#[derive(Clone, Copy)]
pub struct MaskedTerm<N> {
    pub masks: Masks,
    pub coefficient: N,
}

// What an unused place holds.
impl<N: Coefficient> Default for MaskedTerm<N> {
    ghost use Rattle.std.specs.Prelude.{⊤};

    ghost is_default = { λ t. ⊤ };

    fn default() -> Self {
        MaskedTerm {
            masks: Masks { left: 0, right: 0 },
            coefficient: N::zero(),
        }
    }
}

// What a row needs of a set.
pub type MaskedTerms<N> = ArrayVec<MaskedTerm<N>, MOST_TERMS>;

// Whether a record is the zero record.
fn is_blank<K: Key, N: Coefficient>(t: &Term<K, N>) -> bool
    ensures { result ≡ is_blank K.keys N.numbers t.now }
{
    t.key.is_blank() && t.coefficient.is_plus_zero()
}

// Whether a coefficient is one that a valid set holds.
fn is_good_coefficient<N: Coefficient>(zeros: bool, a: N) -> bool
    ensures { result ≡ good_coefficient N.numbers zeros a }
{
    a.in_range() && (zeros || !a.is_zero())
}

// The masks of terms, where every one is as a valid set holds it. Good keys with the same masks are the same.
fn judged_terms<K: Key, N: Coefficient>(zeros: bool, terms: &[Term<K, N>]) -> Option<Seen>
    requires { length terms.now ≤ most_terms }
    ensures { MatchOption result (each (good_term K.keys N.numbers zeros) terms.now ≡ false)
        (λ seen. (each (good_term K.keys N.numbers zeros) terms.now ≡ true) × (seen.masks.items ≡ map (λ t. K.keys.masks_of t.key) terms.now)) }
{
    let mut seen = Seen::new();
    for t in terms {
        let masks = t.key.judged()?;
        if !is_good_coefficient(zeros, t.coefficient) || !seen.insert(masks) {
            return None;
        }
    }
    Some(seen)
}

// Terms with their masks.
fn gathered<K: Key, N: Coefficient>(seen: &Seen, terms: &[Term<K, N>]) -> MaskedTerms<N>
    requires { (length terms.now ≤ most_terms) × (seen.now.masks.items ≡ map (λ t. K.keys.masks_of t.key) terms.now) }
    ensures { result ≡ masked_terms K.keys N.numbers terms.now }
{
    let mut out = ArrayVec::new();
    let masks = seen.masks();
    for (i, t) in terms.iter().enumerate() {
        out.push(MaskedTerm {
            masks: masks[i],
            coefficient: t.coefficient,
        });
    }
    out
}

// Whether zero records stand past the count.
fn has_blanks_past<K: Key, N: Coefficient>(s: &Set<K, N>) -> bool
    requires { s.now.count ≤ most_terms }
    ensures whole { length s.now.terms ≡ most_terms }
    ensures past { result ≡ each (λ t ts. is_blank K.keys N.numbers t) (drop s.now.count s.now.terms) }
{
    places(&s.terms)[s.count..].iter().all(|t| is_blank(t))
}

impl<K: Key, N: Coefficient> Set<K, N> {
    // The masks of a set's terms, where number 0 lets it pass; `zeros` says whether it may hold zeros.
    fn judged(&self, zeros: bool) -> Option<Seen>
        ensures { MatchOption result (valid_set K.keys N.numbers zeros self.now ≡ false)
            (λ seen. (valid_set K.keys N.numbers zeros self.now ≡ true) × (seen.masks.items ≡ map (λ t. K.keys.masks_of t.key) (held_by self.now))) }
    {
        if MOST_TERMS < self.count || !has_blanks_past(self) {
            return None;
        }
        judged_terms(zeros, self.held())
    }

    // A set judged by number 0, with what a row needs of its terms.
    pub fn masked(&self, zeros: bool) -> Option<MaskedTerms<N>>
        ensures { result ≡ masked_set K.keys N.numbers zeros self.now }
    {
        let seen = self.judged(zeros)?;
        Some(gathered(&seen, self.held()))
    }

    // Whether number 0 lets the set pass.
    pub fn is_valid(&self, zeros: bool) -> bool
        ensures { result ≡ valid_set K.keys N.numbers zeros self.now }
    {
        self.judged(zeros).is_some()
    }
}
