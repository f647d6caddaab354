// What the test programs observe of an answer: whether records are the same, and whether lent buffers are as before.
#![tactic(auto)]

pub mod buffers;
pub mod records;
