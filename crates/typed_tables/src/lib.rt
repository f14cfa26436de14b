//! What the types of a program give its tables.
#![tactic(auto)]
