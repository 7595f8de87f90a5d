// No code: no run of the one-core machine is later than the bounds (demand 3), no value later than the delay along its chain.
#![tactic(auto)]
