//! The types of a function's locals.

ghost use Rattle.std.specs.Prelude.{◌≡◌, ℕ, ◌-◌, ◌≤◌, ◌++◌, length, replicate, slice_get, OnOk, OnErr};
ghost use Rattle.body_validator.specs.Runs.{end_of, run_types, AreRising};

use std::alloc::{AllocError, Global};
use std::marker::Model;
use wasm_defs::ValType;

/// Declared locals of one type, side by side: how many locals there are up to and with them, the parameters among them.
#[derive(Clone, Copy)]
pub struct Run {
    pub end: usize,
    pub ty: ValType,
}

/// The locals of a function: its parameters, and after them the declared ones in runs of one type, so that what a body declares
/// takes room and time for each group and not for each local.
#[derive(Drop)]
pub struct Locals<'a> {
    params: &'a [ValType],
    // Why: docs/DECISIONS.md, "Declared locals are kept in runs of one type"
    runs: Vec<Run>,
}

impl<'a> Model for Locals<'a> {
    ghost use Rattle.std.specs.Prelude.{◌++◌, length};
    ghost use Rattle.wasm_defs.specs.Typing.{Types};
    ghost use Rattle.body_validator.specs.Runs.{run_types, AreRising};

    ghost Value = { Types };

    ghost view = { λ l. l.params.now ++ run_types (length l.params.now) l.runs.items };

    ghost invariant = { λ l. AreRising (length l.params.now) l.runs.items };
}

/// Where the last run ends after so many locals.
#[tactic(auto, using(crate::proofs::RunLaws::end_last))]
fn end_of_last(start: usize, runs: &[Run]) -> usize
    ensures { result ≡ end_of start runs.now }
{
    let n = runs.len();
    if n == 0 { start } else { runs[n - 1].end }
}

/// The type of a local, by the first run that ends after it.
fn type_in_runs(runs: &[Run], index: usize) -> Option<ValType>
    ensures { (start : ℕ) → AreRising start runs.now → start ≤ index
        → result ≡ slice_get (run_types start runs.now) (index - start) }
{
    let mut low = 0;
    let mut high = runs.len();
    while low < high {
        let middle = low + (high - low) / 2;
        if runs[middle].end <= index {
            low = middle + 1;
        } else {
            high = middle;
        }
    }
    match runs.get(low) {
        Some(run) => Some(run.ty),
        None => None,
    }
}

/// The type of a declared local. Mostly the first run has it.
#[inline(always)]
fn declared_type(runs: &[Run], index: usize) -> Option<ValType>
    ensures { (start : ℕ) → AreRising start runs.now → start ≤ index
        → result ≡ slice_get (run_types start runs.now) (index - start) }
{
    match runs.get(0) {
        Some(run) => {
            if index < run.end {
                return Some(run.ty);
            }
            type_in_runs(runs, index)
        }
        None => None,
    }
}

impl<'a> Locals<'a> {
    /// Those of a function of these parameters that declares none.
    pub fn new(alloc: Global, params: &'a [ValType]) -> Self
        ensures { result ≡ params.now }
    {
        Locals {
            params,
            runs: Vec::new(alloc),
        }
    }

    /// Begins with those of a function of these parameters that declares none so far.
    pub fn begin(&mut self, params: &'a [ValType])
        ensures { self.new ≡ params.now }
    {
        self.runs.clear();
        self.params = params;
    }

    /// How many there are.
    pub fn len(&self) -> usize
        ensures { result ≡ length self.now }
    {
        end_of_last(self.params.len(), &self.runs)
    }

    /// The type of a local.
    #[inline(always)]
    pub fn get(&self, index: usize) -> Option<ValType>
        ensures { result ≡ slice_get self.now index }
    {
        if index < self.params.len() {
            return Some(self.params[index]);
        }
        declared_type(&self.runs, index)
    }

    /// Declares so many more of one type.
    #[tactic(auto, using(crate::proofs::RunLaws::rising_pushed))]
    pub fn declare(&mut self, count: usize, ty: ValType) -> Result<(), AllocError>
        ensures ok { OnOk result (self.new ≡ self.old ++ replicate count ty) }
        ensures err { OnErr result (self.new ≡ self.old) }
    {
        if count == 0 {
            return Ok(());
        }
        let start = end_of_last(self.params.len(), &self.runs);
        let Some(end) = start.checked_add(count) else {
            return Err(AllocError);
        };
        match self.runs.push(Run { end, ty }) {
            Ok(()) => Ok(()),
            Err(_) => Err(AllocError),
        }
    }
}
