// The library for C: calls of the crates below on numbers, byte slices and plain structs. A byte slice is a pointer
// and behind it a length. The answer of a call that can refuse has a status, which is 0 or the number of the refusal;
// on a refusal all else in it is 0, but a flow or an assembly that was handed in comes back as it was, and a refusal with an index has it. C has no
// Result, no enum that holds a value and no generics: a status and a place for each value stand for them, a struct for each.
#![tactic(auto)]

pub mod assembling;
pub mod building;
pub mod captures;
pub mod checking;
pub mod dumps;
pub mod icmp;
pub mod lengths;
pub mod sums;
pub mod tcp;
pub mod udp;
pub mod version;

// The status of a call that was carried out.
pub const ACCEPTED: u8 = 0;
