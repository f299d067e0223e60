// What is on the wire, read: the header of a packet, and the check of a finished one.
#![tactic(auto)]

pub mod check;
pub mod header;
pub mod tcp;
