// What is inside a unit, what whole messages and its host's calls make of it, and the laws that the bus needs of every kind of unit:
// definitions in specs/, proofs in proofs/. There is no code here.

#![tactic(auto)]
