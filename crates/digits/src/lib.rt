// Digits in octets, two to an octet: what is wrong with octets that hold them, packing and unpacking; a number with its two octets of
// fields before them; and digits as characters.
#![tactic(auto)]

pub mod characters;
pub mod judging;
pub mod numbers;
pub mod packing;
