// Sets of noise terms, pairs of decoherence products with a complex coefficient: definitions, laws, and the name of a term.
#![tactic(auto)]

pub use term_sets::NoiseTerm;
