// One common parameter: its form, a call number both ways, laying it out, and how often names have stood.
#![tactic(auto)]

pub mod call;
pub mod form;
pub mod laying;
pub mod seen;
