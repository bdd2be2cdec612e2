// The day's summary, over any sequence of lines: there is no code here, only the statement (specs/) and its proof (proofs/).
#![tactic(auto)]
