// The entries of carriers (CC): from one to the next, and what is wrong with the contents. Nothing here knows a place in a message.
#![tactic(auto)]

pub mod code;
pub mod cursor;
pub mod judging;
