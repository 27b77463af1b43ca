// Well-formed states stay well formed: theorems only, in specs/.
#![tactic(auto)]
