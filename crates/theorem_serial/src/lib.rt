// The one-by-one reading, proved of the rules: theorems only, in specs/ and proofs/.
#![tactic(auto)]
