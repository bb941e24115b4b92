// No code: laws of the definitions of `annex`, for the proofs of the other crates.
#![tactic(auto)]
