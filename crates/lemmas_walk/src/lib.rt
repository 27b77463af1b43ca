// What holds of the walk along waits: laws of the rules.
#![tactic(auto)]
