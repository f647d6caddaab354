// Records of products made by bringing places together: a site set or read, two products multiplied or joined.
#![tactic(auto)]

mod merge;
pub mod multiply;
pub mod site;
