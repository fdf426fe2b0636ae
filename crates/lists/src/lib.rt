// Tests over lists, and the first number that passes a test: definitions and laws, no code.
#![tactic(auto)]
