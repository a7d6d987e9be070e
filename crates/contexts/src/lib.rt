// Evaluation contexts: definitions and theorems, and no code so far.
#![tactic(auto)]
