// The library that a gateway links: every call of a unit, of the controller, of the messages and of the classes, for C
// (include/hexbus.h).

#![tactic(auto)]

mod controller_calls;
mod message_calls;
mod unit_calls;
