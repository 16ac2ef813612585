//! Tests of workers in threads, alone and in parallel: `cancel_drain`, `result_cells` and `batch_pool`; and of the reader of several
//! modules' frames in `many_streams`. They are in a crate of their own, since a check of tests proves again all that is next to them.
#![tactic(auto)]

#[cfg(test)]
mod boards;
#[cfg(test)]
mod cells;
#[cfg(test)]
mod frames;
#[cfg(test)]
mod modules;
#[cfg(test)]
mod pools;
#[cfg(test)]
mod scopes;
#[cfg(test)]
mod workers;
