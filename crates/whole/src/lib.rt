// What a unit has taken of a command, and the controller of a response, comes to the whole message: statements in specs/, proofs in
// proofs/. There is no code here.

#![tactic(auto)]
