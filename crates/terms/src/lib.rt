// Lists of terms with a key: the definitions and laws that every set of terms shares. The limit that all sets have in common.
#![tactic(auto)]

// The most terms that a set holds.
pub const MOST_TERMS: usize = 64;
