// The connection order of E0: its tables, and what is wrong with its contents. Nothing here knows a place in a message.
#![tactic(auto)]

pub mod judging;
pub mod lengths;
mod table;
