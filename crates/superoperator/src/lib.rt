// What the rows of an open system tell: the entries of its superoperator determine its coefficients, and back. Definitions and laws only.
#![tactic(auto)]
