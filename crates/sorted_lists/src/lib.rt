// Lists sorted and merged by a key, and parts of arrays replaced by them: definitions and laws only.
#![tactic(auto)]
