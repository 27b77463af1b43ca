// What a step comes to, statement by statement: laws of the rules in the shape in which code carries a step out.
#![tactic(auto)]
