// Theorems on the bytes of a machine, of events and of answers: they stand in specs/.
#![tactic(auto)]
