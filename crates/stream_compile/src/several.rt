//! The lines of several modules.

ghost use Rattle.std.specs.Prelude.{◌≡◌, IfOk, map, string_bytes};
ghost use Rattle.stream_compile.specs.Outputs.{view};
ghost use Rattle.stream_compile.specs.Texts.{bad_frame, many_line, many_status, many_text, said, told_many};

use crate::output::{Output, kind_name};
use many_streams::EachChecked;
use std::alloc::{AllocError, Global};

/// The line of the module with this index.
fn line_of(alloc: Global, index: u64, each: &EachChecked) -> Result<String, AllocError>
    ensures { IfOk result (λ line. string_bytes line ≡ many_line index (said each.now)) }
{
    match each {
        EachChecked::Valid(checked) => {
            let functions = checked.functions;
            let bytes = checked.bytes;
            format!(in alloc; "{index} ok {functions} functions {bytes} bytes\n")
        }
        EachChecked::Refused(refusal) => {
            let kind = kind_name(refusal.kind);
            let offset = refusal.offset;
            format!(in alloc; "{index} refused {kind} at {offset}\n")
        }
    }
}

/// A line for each module, in order.
fn text_of(alloc: Global, each: &[EachChecked]) -> Result<String, AllocError>
    ensures { IfOk result (λ text. string_bytes text ≡ many_text 0 (map said each.now)) }
{
    let mut text = String::new(alloc);
    for index in 0..each.len() {
        let line = line_of(alloc, index as u64, &each[index])?;
        text.push_str(line.as_str())?;
    }
    Ok(text)
}

/// The status: 2 where one of them is refused.
fn status_of(each: &[EachChecked]) -> u8
    ensures { result ≡ many_status (map said each.now) }
{
    for index in 0..each.len() {
        if let EachChecked::Refused(_) = &each[index] {
            return 2;
        }
    }
    0
}

/// What each of several modules came to.
pub fn told_many(alloc: Global, each: &[EachChecked]) -> Result<Output, AllocError>
    ensures { IfOk result (λ a. view a ≡ told_many (map said each.now)) }
{
    Ok(Output {
        status: status_of(each),
        text: text_of(alloc, each)?,
    })
}

/// The bytes are no frames: the offset of their error.
pub fn bad_frame(alloc: Global, offset: u64) -> Result<Output, AllocError>
    ensures { IfOk result (λ a. view a ≡ bad_frame offset) }
{
    Ok(Output {
        status: 12,
        text: format!(in alloc; "bad frame at {offset}\n")?,
    })
}
