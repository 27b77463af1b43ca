// The marked trials, computed on the bytes of the calls: theorems alone, in specs/OnBytes.antt.
#![tactic(auto)]
