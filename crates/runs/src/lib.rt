// Runs of a model, and what a formula says of a state: definitions, no code.
#![tactic(auto)]
