// What holds of a state, a thread and a record when an event is carried out on them: laws for the code of a step.
#![tactic(auto)]
