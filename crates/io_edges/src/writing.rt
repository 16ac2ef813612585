ghost use Rattle.std.specs.Prelude.{◌≡◌, true};
ghost use Rattle.io_edges.specs.Streams.{WritesText};

use crate::sink::{Put, Sink};

/// Writes all of some bytes, and says whether the sink took them.
///
/// Where it is false, the sink failed, its count of errors rose, and only a prefix of them is
/// written.
#[tactic(auto, using(crate::proofs::Known::append_more, crate::proofs::Known::append_nothing, crate::proofs::Known::take_step))]
pub fn write_all<O: Sink>(out: &mut O, text: &[u8]) -> bool
    requires { O.is_open out.old ≡ true }
    ensures text { WritesText result text.now (O.written out.old) (O.written out.new)
        (O.faults out.old) (O.faults out.new) }

    // A sink that took all may be written to again.
    ensures open { result ≡ true → O.is_open out.new ≡ true }
{
    let mut from = 0;
    while from < text.len() {
        match out.write(&text[from..]) {
            Put::Took(count) => from += count,
            Put::Failed => return false,
        }
    }
    true
}
