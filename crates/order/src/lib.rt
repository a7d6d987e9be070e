// Tables in order of use, document 02's N4: its definitions, and what is true of them. This crate has no code.
#![tactic(auto)]
