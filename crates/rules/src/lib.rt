// The rules of a graph: definitions and laws, no code.
#![tactic(auto)]
