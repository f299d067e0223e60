// The exports for C: each call of wispbundle under its own name, with its own promise.
#![tactic(auto)]

mod assembling;
mod building;
mod captures;
mod checking;
mod dumps;
mod icmp;
mod sums;
mod tcp;
mod udp;
mod version;
