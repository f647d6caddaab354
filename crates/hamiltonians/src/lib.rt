// Hamiltonians: sets of Pauli products with real coefficients.
#![tactic(auto)]

ghost use Rattle.std.specs.Prelude.{◌≡◌, [], map};
ghost use Rattle.refusal.specs.Refusals.{said_done};
ghost use Rattle.term_sets.specs.Answers.{said_set, said_get};
ghost use Rattle.term_sets.specs.Complexes as complexes;
ghost use Rattle.hamiltonians.specs.Reals.{filled, held_by, complex_term, valid_set};
ghost use Rattle.hamiltonians.specs.RealAnswers.{told, get_real, set_real, add_real, conjugate_real};

use complex::Complex;
use products::PauliProduct;
use refusal::Refusal;
pub use term_sets::RealTerm;
use term_sets::{RealSet, Set, Term, TermSet, places};
use terms::MOST_TERMS;

#[derive(Clone, Copy)]
pub struct PauliHamiltonian {
    pub terms: RealSet,
}

impl PauliHamiltonian {
    // The empty Hamiltonian.
    pub fn new() -> PauliHamiltonian
        ensures { result ≡ filled [] }
    {
        PauliHamiltonian { terms: Set::new() }
    }

    // Whether number 0 lets the Hamiltonian pass.
    pub fn is_valid(&self) -> bool
        ensures { result ≡ valid_set self.now }
    {
        self.terms.is_valid(false)
    }

    // The coefficient under a key, its second part +0.
    pub fn get(&self, key: PauliProduct) -> Result<Complex, Refusal>
        ensures { said_get result ≡ get_real self.now key.items }
    {
        Ok(Complex::from(self.terms.get(false, &key.items)?))
    }

    // A coefficient set under a key; what was there before is answered, its second part +0.
    pub fn set(&mut self, key: PauliProduct, value: f64) -> Result<Option<Complex>, Refusal>
        ensures { (said_set result, self.new) ≡ set_real self.old key.items value }
    {
        let before = term_writing::set(&mut self.terms, false, key.items, value)?;
        Ok(before.map(|x| Complex::from(x)))
    }

    // A coefficient added to the one under a key.
    pub fn add_operator_product(&mut self, key: PauliProduct, value: f64) -> Result<(), Refusal>
        ensures { (said_done result, self.new) ≡ add_real self.old key.items value }
    {
        term_writing::add(&mut self.terms, false, key.items, value)
    }

    // A Hamiltonian is its own conjugate transpose.
    #[tactic(auto, unfolding(crate::specs::RealAnswers::conjugate_real))]
    pub fn hermitian_conjugate(&self) -> Result<PauliHamiltonian, Refusal>
        ensures { told self.now result ≡ conjugate_real self.now }
    {
        if !self.is_valid() {
            return Err(Refusal::Malformed);
        }
        Ok(*self)
    }

    // The terms with complex coefficients, each second part +0.
    pub fn complex_terms(&self) -> TermSet
        ensures { result ≡ complexes.filled (map complex_term (held_by self.now)) }
    {
        let held = &places(&self.terms.terms)[..self.terms.count.min(MOST_TERMS)];
        let mut out = Set::new();
        for (i, t) in held.iter().enumerate() {
            out.terms[i] = Term {
                key: t.key,
                coefficient: Complex::from(t.coefficient),
            };
        }
        out.count = held.len();
        out
    }
}
