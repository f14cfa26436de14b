//! What plans mean: what all processors do in lock step.
#![tactic(auto)]
