// Reading: the verdict of a message, its record, finding contents, and the rows of a listing.
#![tactic(auto)]

pub mod finding;
pub mod reading;
pub mod rows;
pub mod verdict;
