//! From a program to node code: all passes.
#![tactic(auto)]
