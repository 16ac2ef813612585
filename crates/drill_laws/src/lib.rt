//! Laws of drills: that their bytes are modules, and what these return by the reduction rules of WebAssembly. They have no code.
#![tactic(auto)]

ghost use Rattle.drill_laws.specs.Functions.{DrillsReturn};
ghost use Rattle.drill_laws.specs.Modules.{DrillsAreModules, DrillsRun};

/// The last function of a drill returns the sum of the indices of the others, whatever the store, within five reductions for each
/// of them and three more. No call exhausts the stack.
pub fn drills_return()
    ensures { DrillsReturn }
{}

/// The bytes of a drill are a module that is valid and keeps all limits: its functions are those that `drills_return` speaks of, it
/// can be instantiated, and it exports the last of them alone, as `run` (Core 3.4.10 and 5.5). Its functions have 76 n + 46
/// instruction words at most, far fewer than a text may have.
pub fn drills_are_modules()
    ensures { DrillsAreModules }
{}

/// The export of a drill's module returns that sum when it is called without arguments, whatever replies a host has, for each weight
/// from 5 n + 3 on (Core 4.5.5). So it neither traps nor runs for ever.
pub fn drills_run()
    ensures { DrillsRun }
{}
