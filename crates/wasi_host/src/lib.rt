//! A host that provides a part of WASI preview 1, `fd_write` and `proc_exit`, and the functions of `SinkHost`.
//!
//! `specs/Answers.antt` says what each call writes and what is replied to it, `specs/ExitCodes.antt` which exit code calls have.
#![tactic(auto)]

mod arguments;
mod laws;
mod run_end;
mod running;
mod vectors;
mod wasi_host;
mod write_call;

pub use laws::{own_replies_are_one, replies_are_taken, runs_have_own_replies, runs_stop_by_exits};
pub use run_end::RunEnd;
pub use running::run_hosted;
pub use wasi_host::WasiHost;
pub use write_call::WriteCall;
