//! Bodies of a module that waits: they are cut as they come, and kept until workers validate them.

ghost use Rattle.std.specs.Prelude.{◌≡◌, ◌++◌, ℕ, List, [], None, OnOk};
ghost use Rattle.module_stream.specs.declared.compilation.Compilation.{Compilation};
ghost use Rattle.module_stream.specs.Kept.{kept_bodies};
ghost use Rattle.many_streams.specs.Intakes.{Keeps};

use body_cutter::{Batch, Cutter};
use std::alloc::{AllocError, Global};
use std::sync::Arc;
use wasm_defs::{FrontStop, Refusal};

/// Bodies that were cut and kept, none of which is validated so far, and the bytes that came after their section.
#[derive(Drop)]
pub struct Intake {
    pub alloc: Global,
    /// Cuts the bodies.
    pub cutter: Cutter,
    /// The batches that were closed, in order.
    pub kept: Vec<Arc<Batch, Global>>,
    /// The bytes after the section.
    pub rest: Vec<u8>,
    /// The error of the section, after the bodies that were kept.
    pub error: Option<Refusal>,
}

impl Intake {
    /// Before the first body.
    pub fn new(alloc: Global, cutter: Cutter) -> Intake
        ensures cutter { result.cutter ≡ cutter }
        ensures kept { result.kept.items ≡ [] }
        ensures rest { result.rest.items ≡ [] }
        ensures error { result.error ≡ None }
    {
        Intake {
            alloc,
            cutter,
            kept: Vec::new(alloc),
            rest: Vec::new(alloc),
            error: None,
        }
    }

    /// Keeps the batches that are closed.
    fn keep_closed(&mut self) -> Result<(), AllocError>
        ensures same { (self.new.rest ≡ self.old.rest) × (self.new.error ≡ self.old.error) }
        ensures place { self.new.cutter.place ≡ self.old.cutter.place }
        ensures closed { OnOk result (self.new.cutter.queue.closed ≡ []) }
        ensures begun { OnOk result (self.new.cutter.queue.begun ≡ self.old.cutter.queue.begun) }
        ensures least { OnOk result (self.new.cutter.queue.least ≡ self.old.cutter.queue.least) }
        ensures kept { OnOk result (kept_bodies self.new.kept.items ≡ kept_bodies self.old.kept.items ++ self.old.cutter.queue.closed) }
    {
        while let Some(batch) = self.cutter.take_batch() {
            let batch = Arc::new(self.alloc, batch)?;
            self.kept.push(batch)?;
        }
        Ok(())
    }

    /// Takes the next bytes of the module: bodies, as far as their section goes, and what comes after it.
    pub fn feed(&mut self, piece: &[u8]) -> Result<(), AllocError>
        ensures { OnOk result ((bytes more : List ℕ) (s : Compilation) → Keeps bytes s self.old (piece.now ++ more) → Keeps bytes s self.new more) }
    {
        if self.error.is_some() {
            return Ok(());
        }
        if self.cutter.is_whole() {
            self.rest.extend_from_slice(piece)?;
            return Ok(());
        }
        match self.cutter.feed(piece) {
            Ok(taken) => {
                self.keep_closed()?;
                if self.cutter.is_whole() {
                    self.rest.extend_from_slice(&piece[taken..])?;
                }
                Ok(())
            }
            Err(FrontStop::Refused(refusal)) => {
                self.keep_closed()?;
                self.error = Some(refusal);
                Ok(())
            }
            Err(FrontStop::NoMemory) => Err(AllocError),
        }
    }
}
