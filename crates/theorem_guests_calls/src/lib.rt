// A guest's calls on a linked image: theorems only, in specs/ and proofs/.
#![tactic(auto)]
