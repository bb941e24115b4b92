// A walk over octets, any at all, by the length rule alone, parameter by parameter. In an accepted message these are the listed ones.
#![tactic(auto)]

pub mod cursor;
pub mod stretch;
