// There is no code.
#![tactic(auto)]
