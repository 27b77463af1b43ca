// What no event can do, proved of the rules: theorems only, in specs/ and proofs/.
#![tactic(auto)]
