// Runs of demand 2's bus that the checker computes: they meet the theorems' premises. There is no code here.

#![tactic(auto)]
