//! What expressions read with a shift is stored.
#![tactic(auto)]
