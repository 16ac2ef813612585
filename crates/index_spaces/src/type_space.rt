//! The types of a module, and for each of them the least index of an equal one.

ghost use Rattle.std.specs.Prelude.{◌≡◌, ◌<◌, ◌≤◌, ◌++◌, [], ◌∷◌, map, length, unwrap_or, OnOk, OnErr, IfOk};
ghost use Rattle.std.specs.BTreeMap.{IsUnchanged};
ghost use Rattle.wasm_defs.specs.Items.{type_code};
ghost use Rattle.wasm_defs.specs.Context.{like};
ghost use Rattle.index_spaces.specs.Likes.{key_of, index_of, HasFirst};

use std::alloc::{AllocError, Global};
use std::collections::BTreeMap;
use std::marker::Model;
use wasm_defs::{FuncType, ValType};

/// The byte that encodes a value type (Core 5.3.1).
fn type_code(ty: ValType) -> u8
    ensures { result ≡ type_code ty }
{
    match ty {
        ValType::I32 => 0x7F,
        ValType::I64 => 0x7E,
    }
}

fn push_codes(key: &mut Vec<u8>, types: &[ValType]) -> Result<(), AllocError>
    ensures { OnOk result (key.new.items ≡ key.old.items ++ map type_code types.now) }
{
    for ty in types {
        key.push(type_code(*ty))?;
    }
    Ok(())
}

/// What distinguishes a type from every other: the bytes of its parameters and of its results, with a zero
/// between them.
fn key_of(alloc: Global, ty: &FuncType) -> Result<Vec<u8>, AllocError>
    ensures { IfOk result (λ key. key.items ≡ key_of ty.now) }
{
    let mut key = Vec::new(alloc);
    push_codes(&mut key, ty.params.as_slice())?;
    key.push(0)?;
    push_codes(&mut key, ty.results.as_slice())?;
    Ok(key)
}

/// Types by their indices (Core 2.5.2).
#[derive(Drop)]
pub(crate) struct TypeSpace {
    alloc: Global,
    types: Vec<FuncType>,
    likes: Vec<usize>,
    firsts: BTreeMap<Vec<u8>, usize>,
}

impl Model for TypeSpace {
    ghost use Rattle.std.specs.Prelude.{List};
    ghost use Rattle.wasm_defs.specs.declared.types.FuncType.{FuncType};
    ghost use Rattle.index_spaces.specs.Likes.{AreFirst};

    ghost Value = { List FuncType };

    ghost view = { λ s. s.types.items };

    ghost invariant = { λ s. AreFirst s.types.items s.likes.items s.firsts };
}

/// The least index of the key, which is `place` if it had none.
fn first_at(
    firsts: &mut BTreeMap<Vec<u8>, usize>,
    key: Vec<u8>,
    place: usize,
) -> Result<usize, AllocError>
    ensures first { IfOk result (λ first. first ≡ unwrap_or (index_of firsts.old key) place) }
    ensures ok { IfOk result (λ first. HasFirst firsts.old firsts.new key first) }
    ensures err { OnErr result (IsUnchanged firsts.old firsts.new) }
{
    if let Some(first) = firsts.get(&key) {
        return Ok(*first);
    }
    firsts.insert(key, place)?;
    Ok(place)
}

impl TypeSpace {
    /// No types.
    pub(crate) fn new(alloc: Global) -> Self
        ensures { result ≡ [] }
    {
        TypeSpace {
            alloc,
            types: Vec::new(alloc),
            likes: Vec::new(alloc),
            firsts: BTreeMap::new(alloc),
        }
    }

    /// Adds a type after the others.
    pub(crate) fn push(&mut self, ty: FuncType) -> Result<(), AllocError>
        ensures ok { OnOk result (self.new ≡ self.old ++ ty ∷ []) }
        ensures err { OnErr result (self.new ≡ self.old) }
    {
        let key = key_of(self.alloc, &ty)?;
        self.types.reserve(1)?;
        self.likes.reserve(1)?;
        let first = first_at(&mut self.firsts, key, self.types.len())?;
        self.likes.push(first)?;
        self.types.push(ty)?;
        Ok(())
    }

    /// The types in order.
    pub(crate) fn as_slice(&self) -> &[FuncType]
        ensures { result.now ≡ self.now }
    {
        self.types.as_slice()
    }

    /// The least index of a type that equals the type of the index.
    pub(crate) fn like(&self, index: usize) -> usize
        requires { index < length self.now }
        ensures value { result ≡ like self.now index }
        ensures bound { result ≤ index }
    {
        self.likes[index]
    }
}
