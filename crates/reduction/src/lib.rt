// The graph of a model and a formula, and why it answers the question: definitions and laws, no code.
#![tactic(auto)]
