// The master equation and what products contribute to its rows: definitions and theorems only.
#![tactic(auto)]
