// Demand 3, whole: the one-by-one reading of a list of calls. Theorems only, in specs/ and proofs/.
#![tactic(auto)]
