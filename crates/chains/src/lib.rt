// The chains of additions that multiplying, conjugating and converting sets of complex terms are, and scaling.
#![tactic(auto)]

pub mod chain;
pub mod hamiltonian_product;
