//! Images that a source gives.

ghost use Rattle.std.specs.Prelude.{◌≡◌, ◌<◌, ◌^◌, ◌-◌, true, nat_lt, IfOk};
ghost use Rattle.io_edges.specs.Streams.{TookFront};
ghost use Rattle.stream_compile.specs.Running.{IsForeign};

use image_format::{Image, ImageStop, read_image};
use io_edges::{Source, Stop, read_all};
use std::alloc::{AllocError, Global};

/// How many bytes are read: one more than an image may have, so that they decide about any.
const IMAGE_INPUT: usize = 1_073_741_825;

/// What a source gives, as an image.
#[derive(Drop)]
pub enum LoadedImage {
    /// The bytes are this image's.
    Image(Image),
    /// They are none: the offset of their first error.
    Bad(u64),
    /// The source failed.
    Failed,
}

/// Reads an image: to the source's end, to its error, or until the bytes are more than an image has.
pub fn read_foreign<S: Source>(alloc: Global, source: &mut S) -> Result<LoadedImage, AllocError>
    requires faults { S.faults source.old < 2 ^ 64 - 1 }
    requires open { S.is_open source.old ≡ true }
    ensures answer { IfOk result (IsForeign (nat_lt (S.faults source.old) (S.faults source.new)) (S.left source.old) (S.left source.new)) }
    ensures front { TookFront (S.left source.old) (S.faults source.old) (S.left source.new) (S.faults source.new) }
{
    let input = read_all(alloc, source, IMAGE_INPUT)?;
    match input.stop {
        Stop::Failed => Ok(LoadedImage::Failed),
        Stop::End | Stop::Full => match read_image(alloc, input.bytes.as_slice()) {
            Ok(image) => Ok(LoadedImage::Image(image)),
            Err(ImageStop::Bad(offset)) => Ok(LoadedImage::Bad(offset)),
            Err(ImageStop::NoMemory) => Err(AllocError),
        },
    }
}
