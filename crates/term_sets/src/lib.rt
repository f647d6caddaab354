// Sets of terms: the first `count` places hold terms, a key and its coefficient each, zero records stand past them.
#![tactic(auto)]

ghost use Rattle.std.specs.Prelude.{◌≡◌, ◌≤◌, [], map, length};
ghost use Rattle.term_sets.specs.Sets.{terms, blank, filled, held_by, StandsAt, get_in};
ghost use Rattle.terms.specs.Setting.{most_terms, keyed, coefficient_at};
ghost use Rattle.terms.specs.Keyed.{held};
ghost use Rattle.refusal.specs.Refusals.{listed, said_by};

pub mod judging;
pub mod key;
pub mod masks;
mod seen;

use crate::key::Key;
use complex::Complex;
use complex::coefficient::Coefficient;
use items::Items;
use refusal::Refusal;
use std::alloc::AllocError;
use terms::MOST_TERMS;

#[derive(Clone, Copy)]
pub struct Term<K, N> {
    pub key: K,
    pub coefficient: N,
}

#[derive(Copy)]
pub struct Set<K, N> {
    pub count: usize,
    pub terms: [Term<K, N>; MOST_TERMS],
}

// A copy, which needs no memory; a derived clone, of one term after the other, does not say so of an array at a type parameter.
impl<K: Copy, N: Copy> Clone for Set<K, N> {
    ghost use Rattle.std.specs.Prelude.{◌≡◌, ⊤};

    ghost is_clone = { λ x y. y ≡ x };

    ghost is_infallible = { λ s. ⊤ };

    fn clone(&self) -> Result<Set<K, N>, AllocError> {
        Ok(*self)
    }
}

// Products with complex coefficients.
pub type TermSet = Set<Items, Complex>;

// Products with real coefficients, and a term of them.
pub type RealSet = Set<Items, f64>;

pub type RealTerm = Term<Items, f64>;

// Pairs of decoherence products with complex coefficients, and a term of them.
pub type NoiseSet = Set<(Items, Items), Complex>;

pub type NoiseTerm = Term<(Items, Items), Complex>;

// The places of a set. Code at type parameters learns their number here.
pub fn places<T>(t: &[T; MOST_TERMS]) -> &[T]
    ensures { (result.now ≡ t.now) × (length t.now ≡ most_terms) }
{
    &t[..]
}

impl<K: Key, N: Coefficient> Term<K, N> {
    // The zero record.
    pub fn blank() -> Self
        ensures { result ≡ blank K.keys N.numbers }
    {
        Term {
            key: K::blank(),
            coefficient: N::zero(),
        }
    }
}

impl<K: Key, N: Coefficient> Set<K, N> {
    // The empty set.
    pub fn new() -> Self
        ensures { result ≡ filled K.keys N.numbers [] }
    {
        Set {
            count: 0,
            terms: [Term::blank(); MOST_TERMS],
        }
    }

    // The terms that the set holds: at most as many as it has places.
    pub fn held(&self) -> &[Term<K, N>]
        ensures { result.now ≡ held_by self.now }
    {
        &places(&self.terms)[..self.count.min(MOST_TERMS)]
    }

    // How many terms the set holds.
    pub fn held_count(&self) -> usize
        ensures { (result ≡ length (held_by self.now)) × (result ≤ most_terms) }
    {
        self.count.min(places(&self.terms).len())
    }

    // The place of the first term with a key.
    pub fn find(&self, key: &K) -> Option<usize>
        ensures { StandsAt K.keys N.numbers key.now (held_by self.now) result }
    {
        self.held().iter().position(|t| t.key.is_same(key))
    }

    // The coefficient of a key.
    pub fn coefficient_of(&self, key: &K) -> Option<N>
        ensures { listed result ≡ map (λ t. t.coefficient) (held (keyed (terms K.keys N.numbers) key.now) (held_by self.now)) }
    {
        let at = self.find(key)?;
        Some(self.held()[at].coefficient)
    }

    // The coefficient under a key, zero where it is free.
    pub fn coefficient_at(&self, key: &K) -> N
        ensures { result ≡ coefficient_at (terms K.keys N.numbers) key.now (held_by self.now) }
    {
        self.coefficient_of(key).unwrap_or(N::zero())
    }

    // The coefficient under a key, judged: 0, and what the key gives.
    pub fn get(&self, zeros: bool, key: &K) -> Result<N, Refusal>
        ensures { said_by (λ a. a) result ≡ get_in K.keys N.numbers zeros self.now key.now }
    {
        if !self.is_valid(zeros) {
            return Err(Refusal::Malformed);
        }
        key.check()?;
        Ok(self.coefficient_at(key))
    }
}
