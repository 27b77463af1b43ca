// The walk along waits, of what the call returns and writes: theorems alone, in specs/ and proofs/WalkCall.antt.
#![tactic(auto)]
