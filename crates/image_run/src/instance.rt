//! Instances of images.
ghost use Rattle.std.specs.Prelude.{◌≡◌, ◌<◌, true, false, [], Some, None, IfOk, length, map, slice_get};
ghost use Rattle.wasm_defs.specs.Values.{type_of, value_of};
ghost use Rattle.image_format.specs.declared.image.Export.{Export};
ghost use Rattle.image_run.specs.Checks.{export_named, unfit};
ghost use Rattle.image_run.specs.Ends.{RunsTo, TellsCount};
ghost use Rattle.image_run.specs.Sizes.{bytes_wanted};
ghost use Rattle.image_run.specs.States.{first_memory};

use crate::checks::find_export;
use crate::host::Host;
use crate::layout::PAGE;
use crate::outcome::Outcome;
use crate::regions::regions_of;
use crate::run::{enter, run_function, run_start};
use crate::sizes::bytes_wanted;
use crate::words::value_in;
use image_format::{Export, Image, PARAMS};
use linear_memory::read_8;
use rv64im_machine::{Machine, Region};
use std::alloc::{AllocError, Global};
use std::marker::Model;
use wasm_defs::Value;

/// An image that is loaded, and all memory that a run of it can want. It runs once. Contracts see the image, its memory as it is
/// now, whether it has run, and the results of a run that returned.
#[derive(Drop)]
pub struct Instance<'a> {
    image: &'a Image,
    machine: Machine,
    pages: u32,
    room: Vec<Value>,
    has_run: bool,
    /// The function whose run returned: its results are in the stack's first slots.
    returned: Option<&'a Export>,
}

impl<'a> Model for Instance<'a> {
    ghost use Rattle.std.specs.Prelude.{◌*◌, take};
    ghost use Rattle.std.specs.Option.{option_copied};
    ghost use Rattle.wasm_defs.specs.Memory.{page};
    ghost use Rattle.image_format.specs.ImageRun.{results_at};
    ghost use Rattle.image_run.specs.States.{Contents, IsInstance, types_left};

    ghost Value = { Contents };

    ghost view = { λ s. record {
      image = s.image.now;
      memory = take (page * s.pages) s.machine.bytes.memory;
      has_run = s.has_run;
      results = results_at s.machine.bytes.stack 0 (types_left (option_copied s.returned));
    } };

    ghost invariant = { λ s. IsInstance s.image.now s.machine s.pages s.room.items s.has_run (types_left (option_copied s.returned)) };
}

impl<'a> Instance<'a> {
    /// How many bytes `load` takes for an image, all of them at once: the regions, its memory up to the cap among them, the text, what
    /// the machine keeps of the words that it has decoded, and the arguments of an import. What `malloc` adds isn't counted.
    pub fn bytes_wanted(image: &Image) -> u64
        ensures { result ≡ bytes_wanted image.now }
    {
        bytes_wanted(image)
    }

    /// Loads an image: takes the memory for its stack, its globals, its table, its memory as large as it may grow, its text, and the
    /// arguments of its imports. The memory has the image's segments at their addresses, and zeros elsewhere (Core 1.0, 4.5.4). Room
    /// for it is taken up to the image's cap, but only the pages that it has at first are written.
    pub fn load(alloc: Global, image: &'a Image) -> Result<Self, AllocError>
        ensures image { IfOk result (λ s. s.image ≡ image.now) }
        ensures memory { IfOk result (λ s. s.memory ≡ first_memory image.now) }
        ensures ready { IfOk result (λ s. s.has_run ≡ false) }
        ensures results { IfOk result (λ s. s.results ≡ []) }
    {
        let regions = regions_of(alloc, image)?;
        let machine = Machine::new(alloc, image.text.to_vec(alloc)?, regions)?;
        let room = vec![in alloc; Value::I32(0); PARAMS as usize]?;
        Ok(Instance {
            image,
            machine,
            pages: image.pages,
            room,
            has_run: false,
            returned: None,
        })
    }

    /// Whether the instance has run.
    pub fn has_run(&self) -> bool
        ensures { result ≡ self.now.has_run }
    {
        self.has_run
    }

    /// The bytes of the memory, as large as it is now.
    pub fn memory(&self) -> &[u8]
        ensures { result.now ≡ self.now.memory }
    {
        let size = PAGE as usize * self.pages as usize;
        &self.machine.bytes(Region::Memory)[..size]
    }

    /// A result of the run that returned, by its index. The condition is that there are more.
    pub fn result(&self, index: u32) -> Value
        requires { index < length self.now.results }
        ensures { slice_get self.now.results index ≡ Some (value_of result) }
    {
        let Some(export) = self.returned else {
            unreachable!()
        };
        let at = index as usize;
        let ty = export.signature.results.as_slice()[at];
        value_in(ty, read_8(self.machine.bytes(Region::Stack), 8 * at))
    }

    /// Runs the start function of the image, if it has one, and then the exported function of that name with these arguments, both
    /// together for at most so many steps of the machine. The host answers the calls of imports. Where the function returns, the
    /// outcome is the number of its results, and `result` gives them. No memory is taken.
    ///
    /// The conditions are that the image has the export, that the arguments are of its types, that the image isn't unlinkable, and
    /// that the instance hasn't run.
    pub fn start_and_run<H: Host>(
        &mut self,
        export: &str,
        arguments: &[Value],
        host: &mut H,
        steps: u64,
    ) -> Outcome
        requires ready { self.old.has_run ≡ false }
        requires host { H.is_ready host.old ≡ true }
        requires fit { unfit self.old.image (map type_of arguments.now) (export_named export.now self.old.image.exports) ≡ None }
        ensures image { self.new.image ≡ self.old.image }
        ensures has_run { self.new.has_run ≡ true }
        ensures count { TellsCount result self.new.results }
        ensures host { H.is_ready host.new ≡ true }
        ensures run { (e : Export) × (export_named export.now self.old.image.exports ≡ Some e)
            × RunsTo H.answers self.old.image e (map value_of arguments.now) steps host.old host.new result self.new.memory self.new.results }
    {
        let Some(export) = find_export(self.image, export) else {
            unreachable!()
        };
        let mut left = steps;
        self.has_run = true;
        self.returned = None;
        if let Some(outcome) = run_start(
            &mut self.machine,
            &mut self.pages,
            &mut self.room,
            self.image,
            host,
            &mut left,
        ) {
            return outcome;
        }
        enter(&mut self.machine, self.pages, export.offset, arguments);
        if let Some(outcome) = run_function(
            &mut self.machine,
            &mut self.pages,
            &mut self.room,
            self.image,
            host,
            &mut left,
        ) {
            return outcome;
        }
        self.returned = Some(export);
        Outcome::Returned(export.signature.results.as_slice().len() as u32)
    }
}
