// Small laws of the rules that the layers share: theorems only, in specs/.
#![tactic(auto)]
