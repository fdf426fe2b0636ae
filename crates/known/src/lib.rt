// The graphs and models that the paper knows the answers of, T1 to T15: definitions and laws, no code.
#![tactic(auto)]
