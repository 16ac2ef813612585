//! Calls of a module of one function, with answers that were worked out by hand.
use crate::{Called, call_module};
use image_run::{NotRunnable, Outcome};
use std::test::Fail;
use wasm_defs::{Kind, Refusal, Value};

/// `(module (import "app" "get" (func (param i32) (result i64))) (func (export "twice") (param i32) (result i64)
/// local.get 0 call 0 i64.const 2 i64.mul))`
const TWICE: &[u8] =
    b"\0asm\x01\0\0\0\x01\x06\x01\x60\x01\x7F\x01\x7E\x02\x0B\x01\x03app\x03get\0\0\
      \x03\x02\x01\0\x07\x09\x01\x05twice\0\x01\x0A\x0B\x01\x09\0\x20\0\x10\0\x42\x02\x7E\x0B";

/// The numbers that the host has.
const NUMBERS: [i64; 2] = [10, 21];

#[test]
fn calls_are_answered_from_the_list(rt: HostRuntime) -> Result<(), Fail> {
    let rows: [(&str, i32, u64, Called); 4] = [
        (
            "twice",
            1,
            1_000,
            Called::Ended(Outcome::Returned(1), Some(Value::I64(42))),
        ),
        ("twice", 2, 1_000, Called::Ended(Outcome::HostStopped, None)),
        ("twice", 1, 3, Called::Ended(Outcome::StepsSpent, None)),
        (
            "thrice",
            1,
            3,
            Called::NotRunnable(NotRunnable::NoSuchExport),
        ),
    ];
    for (export, argument, steps, wanted) in rows {
        let called = call_module(&rt, rt.alloc(), TWICE, export, argument, &NUMBERS, steps)?;
        assert_eq!(rt; called, wanted);
    }
    Ok(())
}

#[test]
fn bytes_that_are_no_module_are_refused(rt: HostRuntime) -> Result<(), Fail> {
    let refusal = Refusal {
        offset: 20,
        kind: Kind::Ended,
    };
    let called = call_module(&rt, rt.alloc(), &TWICE[..20], "twice", 1, &NUMBERS, 1_000)?;
    assert_eq!(rt; called, Called::Refused(refusal));
    Ok(())
}
