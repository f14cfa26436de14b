//! Tests of `node_turn` that use its public items alone: programs, the turns that their processors
//! are given, and what each turn makes of them.
#![tactic(auto)]

#[cfg(test)]
mod agreements;
#[cfg(test)]
mod basics;
#[cfg(test)]
mod borders;
#[cfg(test)]
mod deliveries;
#[cfg(test)]
mod gathers;
#[cfg(test)]
mod loops;
#[cfg(test)]
mod players;
#[cfg(test)]
mod remaps;
#[cfg(test)]
mod scans;
#[cfg(test)]
mod standings;
#[cfg(test)]
mod stuck;
