//! How modules are compiled.

/// How a module is compiled. Neither setting has an effect on the answer.
#[derive(Clone, Copy, Debug, PartialEq, Eq)]
pub struct Settings {
    /// The worker threads, from 0 to 64; no more are started than the system has processors, or four. With none, the bodies of a batch are
    /// validated before more bytes are read.
    pub workers: u32,
    /// A batch of bodies, which a worker is handed, closes where they have so many bytes, from 1 to 1,048,576.
    pub batch: u32,
}
