//! Tests of what no program shows of syntax objects, scopes and values.
//!
//! `contexts` changes the marks and stamps of single leaves, and `changes` enters, leaves and stamps shared ones. `trees`
//! changes trees of a million nodes, and takes the rests of long lists. `steps` has what is done to frames, or asked of them,
//! a line each, with the answer; `leaves` makes leaves by their marks and stamps, `frames` does a step, and `scopes` goes
//! through all of them. `regions` adds to a region, cuts it back and adds again, `read` reads values of a million pairs, and
//! `stored` asks which cells the value of a datum has.
//!
//! What is expected of marks, stamps and frames is the algorithm of Dybvig, Hieb and Bruggeman (1992), worked out by hand.
#![tactic(auto)]

#[cfg(test)]
mod changes;
#[cfg(test)]
mod contexts;
#[cfg(test)]
mod frames;
#[cfg(test)]
mod leaves;
#[cfg(test)]
mod read;
#[cfg(test)]
mod regions;
#[cfg(test)]
mod scopes;
#[cfg(test)]
mod steps;
#[cfg(test)]
mod stored;
#[cfg(test)]
mod told;
#[cfg(test)]
mod trees;
