// The worked examples of the reporting rules stand in specs/Examples.antt and are proved in proofs/Worked.antt. There is no code.
#![tactic(auto)]
