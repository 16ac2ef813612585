//! Runs of images: an exported function of an image is run on the machine, in the environment that
//! `specs/ImageRun.antt` of `image_format` defines. What the image imports a [`Host`] provides.
#![tactic(auto)]

mod answer;
mod checks;
mod environment;
mod host;
mod imports;
mod instance;
mod layout;
mod outcome;
mod regions;
mod run;
mod sink_host;
mod sizes;
mod wasi_function;
mod words;

pub use checks::{NotRunnable, are_of, call_checks, find_export, run_checks};
pub use host::{Host, Patch, Reply};
pub use instance::Instance;
pub use outcome::Outcome;
pub use sink_host::{HostFunction, SinkHost, function_at, print};
pub use wasi_function::{WasiFunction, wasi_at};
