// No code: what the user asked for and what is claimed, as one record of theorems on the promises of the public functions.
#![tactic(auto)]
