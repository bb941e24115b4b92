// The charging information of F7: what is wrong with its contents, and what they say. Nothing here knows a place in a message.
#![tactic(auto)]

mod drawing;
pub mod judging;
pub mod opening;
