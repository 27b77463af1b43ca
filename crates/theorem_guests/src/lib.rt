// A guest on a linked image does what it does by itself, proved of the rules: theorems only, in specs/ and proofs/.
#![tactic(auto)]
