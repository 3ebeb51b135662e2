// The IP header: its numbers, its checks (refusals 30 to 33), and the protocols after it.
#![tactic(auto)]

pub mod big_endian;
pub mod byte_numbers;
pub mod ip;
pub mod protocols;
