//! Instructions of the bodies that are made, and their bytes.

use std::alloc::AllocError;

/// An instruction, or a part of a structured one. Every value is an `i32`.
#[derive(Clone, Copy)]
pub enum Token {
    /// The constant whose number these seven bits encode: from -64 to 63.
    Const(u8),
    Get(u8),
    Set(u8),
    Tee(u8),
    Add,
    Sub,
    Eqz,
    Drop,
    Unreachable,
    /// A block, and whether it has a result; so the next two.
    Block(bool),
    Loop(bool),
    If(bool),
    Else,
    End,
    Br(u8),
    BrIf(u8),
    /// Two labels and the last one.
    BrTable(u8, u8, u8),
    Return,
}

/// The number that the seven bits of a constant encode.
pub fn number_of(bits: u8) -> i32 {
    if bits < 64 {
        i32::from(bits)
    } else {
        i32::from(bits) - 128
    }
}

fn push_all(bytes: &mut Vec<u8>, more: &[u8]) -> Result<(), AllocError> {
    for byte in more {
        bytes.push(*byte)?;
    }
    Ok(())
}

fn block_type(has_result: bool) -> u8 {
    if has_result { 0x7F } else { 0x40 }
}

/// Appends the bytes of an instruction (Core 5.4). Constants, indices and labels are below 128.
pub fn push_token(bytes: &mut Vec<u8>, token: Token) -> Result<(), AllocError> {
    match token {
        Token::Const(bits) => push_all(bytes, &[0x41, bits]),
        Token::Get(local) => push_all(bytes, &[0x20, local]),
        Token::Set(local) => push_all(bytes, &[0x21, local]),
        Token::Tee(local) => push_all(bytes, &[0x22, local]),
        Token::Add => push_all(bytes, &[0x6A]),
        Token::Sub => push_all(bytes, &[0x6B]),
        Token::Eqz => push_all(bytes, &[0x45]),
        Token::Drop => push_all(bytes, &[0x1A]),
        Token::Unreachable => push_all(bytes, &[0x00]),
        Token::Block(has_result) => push_all(bytes, &[0x02, block_type(has_result)]),
        Token::Loop(has_result) => push_all(bytes, &[0x03, block_type(has_result)]),
        Token::If(has_result) => push_all(bytes, &[0x04, block_type(has_result)]),
        Token::Else => push_all(bytes, &[0x05]),
        Token::End => push_all(bytes, &[0x0B]),
        Token::Br(label) => push_all(bytes, &[0x0C, label]),
        Token::BrIf(label) => push_all(bytes, &[0x0D, label]),
        Token::BrTable(first, second, last) => push_all(bytes, &[0x0E, 2, first, second, last]),
        Token::Return => push_all(bytes, &[0x0F]),
    }
}
