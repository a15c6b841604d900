// Demand 2's bus: one controller and any list of units, round by round: statements in specs/, proofs in proofs/. There is no code here.

#![tactic(auto)]
