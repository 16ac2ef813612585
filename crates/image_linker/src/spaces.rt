//! What an image has of its module's tables, memories and globals.

ghost use Rattle.std.specs.Prelude.{◌≡◌, ◌+◌, ◌<◌, ◌^◌, ◌++◌, length, IfOk};
ghost use Rattle.rv_isa.specs.Steps.{region_base};
ghost use Rattle.rv_isa.specs.declared.stepping.Region.TheVariants.{Passive};
ghost use Rattle.wasm_defs.specs.Instances.{first_minimum, first_cap};
ghost use Rattle.index_spaces.specs.Entries.{segments_at_first};
ghost use Rattle.image_linker.specs.ImageOf.{segment_words, joined};
ghost use Rattle.image_linker.specs.Linking.{NumbersFit, global_words};

use crate::segments::put_words;
use index_spaces::{Context, DataRow};
use std::alloc::{AllocError, Global};
use wasm_defs::{Limits, MAX_PAGES};

/// The minimum of the first table or memory, or 0 where there is none.
pub(crate) fn first_minimum(spaces: &[Limits]) -> u32
    ensures { result ≡ first_minimum spaces.now }
{
    match spaces.first() {
        Some(limits) => limits.min.1,
        None => 0,
    }
}

/// The pages up to which the first memory may grow, or 0 where there is none.
pub(crate) fn first_cap(memories: &[Limits]) -> u32
    ensures { result ≡ first_cap memories.now }
{
    match memories.first() {
        Some(limits) => match limits.max {
            Some(most) => most.1.min(MAX_PAGES),
            None => MAX_PAGES,
        },
        None => 0,
    }
}

/// The 64-bit values that the globals begin with: a number of 32 bits is extended by its sign.
fn global_words(alloc: Global, context: &Context) -> Result<Vec<u64>, AllocError>
    requires { NumbersFit context.now.globals context.now.initials }
    ensures { IfOk result (λ words. words.items ≡ global_words context.now) }
{
    let numbers = context.initials();
    let mut words = Vec::with_capacity(alloc, numbers.len())?;
    for number in numbers {
        words.push(number.cast_unsigned())?;
    }
    Ok(words)
}

/// The words that an image has for the globals, and after them those for these data segments.
pub(crate) fn all_words(
    alloc: Global,
    context: &Context,
    named: &[DataRow],
) -> Result<Vec<u64>, AllocError>
    requires numbers { NumbersFit context.now.globals context.now.initials }
    requires passive { region_base Passive + length (joined (segments_at_first named.now)) < 2 ^ 64 }
    ensures { IfOk result (λ words. words.items ≡ global_words context.now ++ segment_words 0 (segments_at_first named.now)) }
{
    let mut words = global_words(alloc, context)?;
    put_words(&mut words, named)?;
    Ok(words)
}
