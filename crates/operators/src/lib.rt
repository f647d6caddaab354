// Operators: sums of products of one kind with complex coefficients.
#![tactic(auto)]

ghost use Rattle.std.specs.Prelude.{◌≡◌, [], true};
ghost use Rattle.refusal.specs.Refusals.{said_done};
ghost use Rattle.letters.specs.Matrices.{letters_of, pauli, decoherence};
ghost use Rattle.term_sets.specs.Complexes.{filled, valid_set};
ghost use Rattle.term_sets.specs.Answers.{said_set, said_get, get_term};
ghost use Rattle.term_writing.specs.WritingAnswers.{set_term, add_term};
ghost use Rattle.chains.specs.ChainAnswers.{multiply_sets, conjugate_set, convert_set, scale_set};
ghost use Rattle.chains.specs.HamiltonianProducts.{multiply_reals, into_operator};
ghost use Rattle.operators.specs.Kinds.{holds_zeros, told_operator};

use complex::Complex;
use hamiltonians::PauliHamiltonian;
use letters::Kind;
use letters::alphabet::{Alphabet, DecoherenceLetters, PauliLetters};
use products::Product;
use refusal::Refusal;
use std::marker::PhantomData;
use term_sets::{Set, TermSet};

#[derive(Clone, Copy)]
pub struct Operator<K> {
    pub terms: TermSet,
    letters: PhantomData<K>,
}

pub type PauliOperator = Operator<PauliLetters>;

pub type DecoherenceOperator = Operator<DecoherenceLetters>;

// Any set of terms, as an operator in letters of the kind that the type says.
pub fn operator_of<K>(terms: TermSet) -> Operator<K>
    ensures { result.terms ≡ terms }
{
    Operator {
        terms,
        letters: PhantomData,
    }
}

// Whether operators of the kind may hold zeros: only Pauli operators, which can be scaled.
fn holds_zeros(kind: Kind) -> bool
    ensures { result ≡ holds_zeros kind }
{
    kind == Kind::Pauli
}

impl<K: Alphabet> Operator<K> {
    // The operator without terms.
    pub fn new() -> Self
        ensures { result.terms ≡ filled [] }
    {
        operator_of(Set::new())
    }

    // Whether number 0 lets the operator pass.
    pub fn is_valid(&self) -> bool
        ensures { result ≡ valid_set (holds_zeros K.KIND) self.now.terms }
    {
        self.terms.is_valid(holds_zeros(K::KIND))
    }

    // The coefficient of a product, zero where there is none.
    #[tactic(auto, using(term_writing::proofs::Instances::get_term_is))]
    pub fn get(&self, key: Product<K>) -> Result<Complex, Refusal>
        ensures { said_get result ≡ get_term (holds_zeros K.KIND) self.now.terms key.items }
    {
        self.terms.get(holds_zeros(K::KIND), &key.items)
    }

    // The coefficient of a product set; what was there before is answered.
    #[tactic(auto, using(term_writing::proofs::Instances::set_term_is))]
    pub fn set(&mut self, key: Product<K>, value: Complex) -> Result<Option<Complex>, Refusal>
        ensures { (said_set result, self.new.terms) ≡ set_term (holds_zeros K.KIND) self.old.terms key.items value }
    {
        term_writing::set(&mut self.terms, holds_zeros(K::KIND), key.items, value)
    }

    // A coefficient added to that of a product.
    #[tactic(auto, using(term_writing::proofs::Instances::add_term_is))]
    pub fn add_operator_product(&mut self, key: Product<K>, value: Complex) -> Result<(), Refusal>
        ensures { (said_done result, self.new.terms) ≡ add_term (holds_zeros K.KIND) self.old.terms key.items value }
    {
        term_writing::add(&mut self.terms, holds_zeros(K::KIND), key.items, value)
    }

    // The product of two operators.
    pub fn multiply(&self, right: &Self) -> Result<Self, Refusal>
        ensures { told_operator self.now.terms result ≡ multiply_sets (letters_of K.KIND) (holds_zeros K.KIND) self.now.terms right.now.terms }
    {
        let zeros = holds_zeros(K::KIND);
        let product = chains::chain::multiply(K::KIND, zeros, &self.terms, &right.terms)?;
        Ok(operator_of(product))
    }

    // The conjugate transpose.
    pub fn hermitian_conjugate(&self) -> Result<Self, Refusal>
        ensures { told_operator self.now.terms result ≡ conjugate_set (letters_of K.KIND) (holds_zeros K.KIND) self.now.terms }
    {
        let conjugate = chains::chain::conjugate(K::KIND, holds_zeros(K::KIND), &self.terms)?;
        Ok(operator_of(conjugate))
    }
}

impl Operator<PauliLetters> {
    // Every coefficient times a number; terms that become zero stay.
    pub fn scale(&self, value: Complex) -> Result<PauliOperator, Refusal>
        ensures { told_operator self.now.terms result ≡ scale_set self.now.terms value }
    {
        Ok(operator_of(chains::chain::scale(&self.terms, value)?))
    }

    // A Hamiltonian as an operator.
    pub fn from_hamiltonian(hamiltonian: &PauliHamiltonian) -> Result<PauliOperator, Refusal>
        ensures { told_operator (filled []) result ≡ into_operator hamiltonian.now }
    {
        Ok(operator_of(chains::hamiltonian_product::convert(hamiltonian)?))
    }

    // The product of two Hamiltonians, which is an operator.
    pub fn from_hamiltonians(
        left: &PauliHamiltonian,
        right: &PauliHamiltonian,
    ) -> Result<PauliOperator, Refusal>
        ensures { told_operator (filled []) result ≡ multiply_reals left.now right.now }
    {
        let product = chains::hamiltonian_product::multiply(left, right)?;
        Ok(operator_of(product))
    }
}

impl Operator<DecoherenceLetters> {
    // A Pauli operator in decoherence letters.
    #[tactic(auto, unfolding(letters::specs::Matrices::letters_of))]
    pub fn from_pauli_operator(operator: &PauliOperator) -> Result<DecoherenceOperator, Refusal>
        ensures { told_operator (filled []) result ≡ convert_set pauli decoherence true operator.now.terms }
    {
        let converted = chains::chain::convert(Kind::Pauli, true, &operator.terms)?;
        Ok(operator_of(converted))
    }
}
