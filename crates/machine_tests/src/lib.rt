//! Tests of the machine, which prove the tests alone: the same steps in two ways end alike.
#![tactic(auto)]

#[cfg(test)]
mod assembly;
#[cfg(test)]
mod memories;
#[cfg(test)]
mod random;
#[cfg(test)]
mod sequences;
#[cfg(test)]
mod templates;
