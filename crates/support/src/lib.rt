// Claims about a graph, and when they are accepted: definitions and laws, no code.
#![tactic(auto)]
