// No code: theorems about the definitions of `annex`.
#![tactic(auto)]
