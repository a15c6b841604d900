// How a message is laid out, read and written, and both round trips, for any fields before and after its data: definitions in
// specs/, laws in proofs/. There is no code here.

#![tactic(auto)]
