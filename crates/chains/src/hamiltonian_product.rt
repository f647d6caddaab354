// What Hamiltonians make as complex operators: their products, and themselves.
ghost use Rattle.std.specs.Prelude.{◌≡◌, []};
ghost use Rattle.term_sets.specs.Complexes.{filled};
ghost use Rattle.chains.specs.ChainAnswers.{told};
ghost use Rattle.chains.specs.HamiltonianProducts.{multiply_reals, into_operator};

use crate::chain::{collected, multiplied};
use hamiltonians::PauliHamiltonian;
use letters::Kind;
use refusal::Refusal;
use term_sets::TermSet;

// The product of two Hamiltonians.
#[tactic(auto, unfolding(crate::specs::HamiltonianProducts::multiply_reals))]
pub fn multiply(left: &PauliHamiltonian, right: &PauliHamiltonian) -> Result<TermSet, Refusal>
    ensures { told (filled []) result ≡ multiply_reals left.now right.now }
{
    if !left.is_valid() || !right.is_valid() {
        return Err(Refusal::Malformed);
    }
    multiplied(Kind::Pauli, &left.complex_terms(), &right.complex_terms())
}

// A Hamiltonian as a complex operator.
#[tactic(auto, unfolding(crate::specs::HamiltonianProducts::into_operator))]
pub fn convert(hamiltonian: &PauliHamiltonian) -> Result<TermSet, Refusal>
    ensures { told (filled []) result ≡ into_operator hamiltonian.now }
{
    if !hamiltonian.is_valid() {
        return Err(Refusal::Malformed);
    }
    collected(&hamiltonian.complex_terms())
}
