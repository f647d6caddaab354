// The entries of document 01, the types that they take and answer, and what makes an operator of a set of terms, by one name each. Nothing is
// written here.
#![tactic(auto)]

// Refusals and their numbers.
pub use refusal::Refusal;

// Complex numbers.
pub use complex::Complex;
pub use complex::coefficient::Coefficient;

// The letters of one site, as values and as types.
pub use letters::alphabet::{Alphabet, DecoherenceLetters, PauliLetters};
pub use letters::{HIGHEST_LETTER, Kind, Scaled};

// Products of letters on sites.
pub use items::{CAPACITY, HIGHEST_SITE, Items, SITE_COUNT, Site};
pub use products::{DecoherenceProduct, PauliProduct, Product, ProductEntry, WithPower};
pub use row_entries::MOST_SPINS;

// Sets of terms: operators and Hamiltonians.
pub use hamiltonians::{PauliHamiltonian, RealTerm};
pub use operators::{DecoherenceOperator, Operator, PauliOperator, operator_of};
pub use term_sets::key::Key;
pub use term_sets::{NoiseSet, NoiseTerm, RealSet, Set, Term, TermSet};
pub use terms::MOST_TERMS;

// Noise.
pub use noise::PauliLindbladNoiseOperator;

// Open systems.
pub use open_system::PauliLindbladOpenSystem;

// Rows, delivered into lent buffers.
pub use exact_rows::exact_row;
pub use open_rows::noise_row::noise_row;
pub use open_rows::row as open_row;
pub use operator_rows::{
    commutator_row, hamiltonian_commutator_row, hamiltonian_row, operator_row,
};
