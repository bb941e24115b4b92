// How tight each promise is: lemmas alone, in specs/.
#![tactic(auto)]
