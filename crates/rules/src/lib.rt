// This crate has no code: the definitions and what is true of them. What code asks of them stands in `kinds`.
#![tactic(auto)]
