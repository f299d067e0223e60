// Raw IPv4 packets: what is on the wire.
#![tactic(auto)]

pub mod copying;
mod csum;
pub mod ipv4;
pub mod limit;
pub mod refusal;
