//! Calls of `fd_write`.

/// The arguments of a call of `fd_write` (WASI preview 1), in order. Addresses and numbers are unsigned.
#[derive(Clone, Copy, Debug, PartialEq, Eq)]
pub struct WriteCall {
    /// The file (`fd`).
    pub fd: u32,
    /// The address of the first vector (`ciovec_array`).
    pub iovs: u32,
    /// How many vectors there are, one after another.
    pub iovs_len: u32,
    /// The address at which the number of bytes (`size`) is stored, in four bytes.
    pub nwritten: u32,
}
