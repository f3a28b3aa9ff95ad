//! Tests of the library crates by their public calls: worked values from outside, and devices that
//! give little or fail. They are made with enough memory.
//!
//! Edits are made and undone by `apply` and `revert`. What runs of the program show is a case in
//! `cases/` or a row of `checks/large`. A table is one text, and each of its lines is a row.
#![tactic(auto)]

#[cfg(test)]
mod captures;
#[cfg(test)]
mod devices;
#[cfg(test)]
mod edges;
#[cfg(test)]
mod editing;
#[cfg(test)]
mod examples;
#[cfg(test)]
mod fake_devices;
#[cfg(test)]
mod fixtures;
#[cfg(test)]
mod messages;
#[cfg(test)]
mod names;
#[cfg(test)]
mod reading;
#[cfg(test)]
mod values;
#[cfg(test)]
mod waves;
