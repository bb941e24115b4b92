// The three demands, each as one statement over the promises: in specs/.
#![tactic(auto)]
