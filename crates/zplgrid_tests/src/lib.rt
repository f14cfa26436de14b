//! Tests of the call that the program makes.
#![tactic(auto)]

#[cfg(test)]
mod calls;
#[cfg(test)]
mod checks;
#[cfg(test)]
mod execs;
#[cfg(test)]
mod faults;
#[cfg(test)]
mod gens;
#[cfg(test)]
mod grids;
#[cfg(test)]
mod letters;
#[cfg(test)]
mod lists;
#[cfg(test)]
mod means;
#[cfg(test)]
mod orders;
#[cfg(test)]
mod rows;
#[cfg(test)]
mod saves;
#[cfg(test)]
mod settings;
#[cfg(test)]
mod sizes;
#[cfg(test)]
mod times;
