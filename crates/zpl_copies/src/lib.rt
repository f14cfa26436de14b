//! The copies from which reads that wrap round are made: which arrays the names of such reads may
//! stand for, through calls, and whether the storage of a copy passes the limit of regions.
#![tactic(auto)]

mod arrays;
mod boxes;
mod copies;
mod flows;
mod procedures;
mod scopes;
mod shapes;
mod uses;
mod visits;

pub use copies::copies_within;
