// One transfer parameter: what is wrong with its contents, and the values that they hold. Nothing here knows a place in a message.
#![tactic(auto)]

pub mod contents;
pub mod opening;
pub mod transfer;
