// Document 02, N1: the definitions of inference and what is true of them. This crate has no code.
#![tactic(auto)]
