// The cases that document 01 marks ●: one table of inputs and outcomes.
// No functions: the table stands in specs, its proof in proofs.
#![tactic(auto)]
