// The papers' marked cases: a list and one statement, in specs/ and proofs/. There is no code here.

#![tactic(auto)]
