// Demand 3: the polling ring, turn by turn: statements in specs/, proofs in proofs/. There is no code here.

#![tactic(auto)]
