// Condition 3: two lists of calls make systems with the same exact rows exactly if document 01's plain book ends the same for both.
// No functions: the statement stands in specs, its proof in proofs.
#![tactic(auto)]
