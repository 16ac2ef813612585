//! Hosts: what imported functions do.
ghost use Rattle.std.specs.Prelude.{◌≡◌, Bool, true};
ghost use Rattle.wasm_defs.specs.Host.{HostCall, Reply as Replied};
ghost use Rattle.image_run.specs.Hosts.{call_of, reply_of};

use wasm_defs::Value;

/// Bytes that a host writes to the memory.
#[derive(Clone, Copy, Debug, PartialEq, Eq)]
pub struct Patch {
    /// The address of the first one.
    pub place: u32,
    pub bytes: [u8; 8],
    /// How many of the bytes are written, from the first on: at most 8.
    pub len: u8,
}

/// What a host replies to a call.
///
/// The value is of the import's result type, and none where it has no result. The patch has at most 8 bytes and is in the memory
/// as large as it is at the call. A reply that isn't so is taken as `Stop`.
#[derive(Clone, Copy, Debug, PartialEq, Eq)]
pub enum Reply {
    /// The function returns, and the memory is changed by the patch.
    Value(Option<Value>, Option<Patch>),
    /// The run ends here.
    Stop,
}

/// A host of an image: it provides the functions that the image imports (WebAssembly Core 1.0, 4.4.7.3).
pub trait Host {
    /// Whether it may be called. Calls leave it so.
    ghost is_ready: { Self → Bool };

    /// Whether a call may lead from one host to another with that reply. A host that says nothing of its calls lets all of them.
    ghost answers: { Self → HostCall → Replied → Self → Type 0 };

    /// Calls the import of that number, counted from 0 in the order of the image, with these arguments. The memory is as large as it
    /// is at the call.
    fn call(&mut self, number: u32, arguments: &[Value], memory: &[u8]) -> Reply
        requires { is_ready self.old ≡ true }
        ensures ready { is_ready self.new ≡ true }
        ensures answered { answers self.old (call_of number arguments.now memory.now) (reply_of result) self.new };
}
