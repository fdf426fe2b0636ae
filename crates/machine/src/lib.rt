// The search from one node of a graph as a machine: definitions and laws, no code.
#![tactic(auto)]
