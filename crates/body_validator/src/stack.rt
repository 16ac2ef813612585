//! The open frames of a body, and their operands.

ghost use Rattle.std.specs.Prelude.{◌≡◌, ◌-◌, ◌<◌, [], ◌∷◌, ◌++◌, length, reverse, take, Some, None, slice_get, MatchOption, vec_len, vec_capacity};
ghost use Rattle.std.specs.Prelude.{OnOk, OnErr};
ghost use Rattle.body_validator.specs.Checking.{height, body_frames, label_of, is_open, is_live, may_turn, labels, may_end, takes_else, applied, enter, turned};
ghost use Rattle.body_validator.specs.Checking.{ended};
ghost use Rattle.wasm_defs.specs.Typing.{Stops, Fixed, Discards, Selects};
ghost use Rattle.body_validator.specs.Exchange.{taken_types, few_types, given_types, Steps, Tries};
ghost use Rattle.body_validator.specs.Stacks.{HasLast, is_live_in, signature};

use crate::kept::Operands;
use crate::operands::{Few, Stop, Taken, are_same, count_of};
use std::alloc::{AllocError, Global};
use std::marker::Model;
use wasm_defs::ValType;

/// What opened a frame: the body is a block of its own, and `Else` is an `if` that had its `else`.
#[derive(Clone, Copy, Debug, PartialEq, Eq)]
pub enum Opening {
    Block,
    Loop,
    If,
    Else,
}

/// A frame: what opened it, its type, and where its operands begin.
#[derive(Clone, Copy)]
pub struct Frame<'a> {
    pub opening: Opening,
    pub params: &'a [ValType],
    pub results: &'a [ValType],
    pub base: usize,
    pub unknown: bool,
    pub live: bool,
}

#[inline(always)]
fn innermost<'a>(frames: &[Frame<'a>]) -> Option<Frame<'a>>
    ensures { MatchOption result (frames.now ≡ []) (HasLast frames.now) }
{
    let n = frames.len();
    if n == 0 {
        return None;
    }
    Some(frames[n - 1])
}

fn replace_innermost<'a>(frames: &mut Vec<Frame<'a>>, frame: Frame<'a>)
    requires { 0 < vec_len frames.old }
    ensures { reverse frames.new.items
        ≡ frame.entry ∷ reverse (take (length frames.old.items - 1) frames.old.items) }
{
    let n = frames.len();
    frames[n - 1] = frame;
}

fn push_frame<'a>(frames: &mut Vec<Frame<'a>>, frame: Frame<'a>)
    requires { vec_len frames.old < vec_capacity frames.old }
    ensures { frames.new.items ≡ frames.old.items ++ frame.entry ∷ [] }
{
    match frames.push(frame) {
        Ok(()) => {}
        Err(_) => unreachable!(),
    }
}

/// Whether what begins inside these frames is reachable.
fn is_live_inside(frames: &[Frame<'_>]) -> bool
    ensures { result ≡ is_live_in (reverse frames.now) }
{
    match innermost(frames) {
        Some(frame) => frame.live,
        None => true,
    }
}

fn awaits_else(opening: Opening) -> bool
    ensures { result ≡ takes_else opening }
{
    match opening {
        Opening::If => true,
        _ => false,
    }
}

/// Whether a frame may end here: an `if` without an `else` gives back what it took.
fn can_end(frame: Frame<'_>) -> bool
    ensures { result
        ≡ may_end frame.entry.opening (signature frame.entry.params.now frame.entry.results.now) }
{
    match frame.opening {
        Opening::If => are_same(frame.params, frame.results),
        _ => true,
    }
}

/// The types that a frame's label takes (Core 3.3.5.3 and 3.3.5.4).
fn taken_by_label<'a>(frame: Frame<'a>) -> &'a [ValType]
    ensures { reverse result.now
        ≡ label_of frame.entry.opening (signature frame.entry.params.now frame.entry.results.now) }
{
    match frame.opening {
        Opening::Loop => frame.params,
        _ => frame.results,
    }
}

/// The frames that are open, none once the body has ended.
#[derive(Drop)]
pub struct Stack<'a> {
    frames: Vec<Frame<'a>>,
    operands: Operands<'a>,
    /// Whether this point is reachable, as the innermost frame has it.
    live: bool,
}

impl<'a> Model for Stack<'a> {
    ghost use Rattle.std.specs.Prelude.{reverse};
    ghost use Rattle.body_validator.specs.Checking.{Frames};

    ghost Value = { Frames };

    ghost use Rattle.std.specs.Prelude.{◌≡◌};
    ghost use Rattle.body_validator.specs.Stacks.{frames_of, is_live_at, IsLaid};
    ghost use Rattle.body_validator.specs.Kept.{flat, IsSeenFrom};

    ghost view = { λ s. frames_of (reverse s.frames.items) (flat s.operands) };

    ghost invariant = { λ s. IsLaid (reverse s.frames.items) (flat s.operands) × IsSeenFrom (reverse s.frames.items) s.operands
        × (s.live ≡ is_live_at (reverse s.frames.items)) };
}

impl<'a> Stack<'a> {
    /// No frames.
    pub fn idle(alloc: Global) -> Self
        ensures { result ≡ [] }
    {
        Stack {
            frames: Vec::new(alloc),
            operands: Operands::new(alloc),
            live: false,
        }
    }

    /// Begins with the frame of a body of these results, in the room of the others. Where memory runs out they are as before.
    pub fn begin(&mut self, results: &'a [ValType]) -> Result<(), AllocError>
        ensures ok { OnOk result (self.new ≡ body_frames (reverse results.now)) }
        ensures err { OnErr result (self.new ≡ self.old) }
    {
        self.frames.reserve(1)?;
        self.frames.clear();
        self.operands.clear();
        push_frame(
            &mut self.frames,
            Frame {
                opening: Opening::Block,
                params: &[],
                results,
                base: 0,
                unknown: false,
                live: true,
            },
        );
        self.live = true;
        Ok(())
    }

    /// How many operands there are.
    pub fn height(&self) -> usize
        ensures { result ≡ height self.now }
    {
        let _ = &self.frames;
        self.operands.height()
    }

    /// Whether the body goes on.
    pub fn is_open(&self) -> bool
        ensures { result ≡ is_open self.now }
    {
        match innermost(&self.frames) {
            Some(_) => true,
            None => false,
        }
    }

    /// Whether this point is reachable.
    pub fn is_live(&self) -> bool
        ensures { result ≡ is_live self.now }
    {
        self.live
    }

    /// Whether an `else` closes the innermost frame.
    pub fn awaits_else(&self) -> bool
        ensures { result ≡ may_turn self.now }
    {
        match innermost(&self.frames) {
            Some(frame) => awaits_else(frame.opening),
            None => false,
        }
    }

    /// The types that a label takes, 0 being the innermost.
    pub fn label(&self, index: u32) -> Option<&'a [ValType]>
        ensures { MatchOption result (slice_get (labels self.now) index ≡ None)
            (λ types. slice_get (labels self.now) index ≡ Some (reverse types.now)) }
    {
        let count = self.frames.len();
        let depth = index as usize;
        if count <= depth {
            return None;
        }
        Some(taken_by_label(self.frames[count - 1 - depth]))
    }

    /// Takes few operands, which are single ones, from the innermost frame, and puts one in their place, or none. A refusal says only
    /// that the single ones don't do.
    #[inline(always)]
    pub fn exchange_few(&mut self, taken: Few, given: Option<ValType>) -> Result<(), Stop>
        ensures { Tries (applied (Fixed (few_types taken) (given_types given)) self.old) result self.old self.new }
    {
        if self.frames.len() == 0 {
            return Err(Stop::Refused);
        }
        self.operands.exchange_few(taken, given)
    }

    /// Takes operands from the innermost frame, which may be in lists, and puts others in their place.
    pub fn exchange(&mut self, taken: Taken<'_>, given: &'a [ValType]) -> Result<(), Stop>
        ensures { Steps (applied (Fixed (taken_types taken.entry) (reverse given.now)) self.old) result
            self.old self.new }
    {
        let Some(frame) = innermost(&self.frames) else {
            return Err(Stop::Refused);
        };
        self.operands
            .exchange(frame.base, frame.unknown, taken, given)
    }

    /// Takes operands, after which the point isn't reachable.
    pub fn stop(&mut self, taken: Taken<'_>) -> Result<(), Stop>
        ensures { Steps (applied (Stops (taken_types taken.entry)) self.old) result self.old self.new }
    {
        let Some(frame) = innermost(&self.frames) else {
            return Err(Stop::Refused);
        };
        if !self.operands.finds(frame.base, frame.unknown, taken)? {
            return Err(Stop::Refused);
        }
        self.operands.cut(frame.base);
        self.operands.look(frame.base, true);
        let stopped = Frame {
            unknown: true,
            live: false,
            ..frame
        };
        replace_innermost(&mut self.frames, stopped);
        self.live = false;
        Ok(())
    }

    /// Takes an operand of any type.
    pub fn discard(&mut self) -> Result<(), Stop>
        ensures { Steps (applied Discards self.old) result self.old self.new }
    {
        let Some(frame) = innermost(&self.frames) else {
            return Err(Stop::Refused);
        };
        self.operands.discard(frame.base, frame.unknown)
    }

    /// Takes a condition and two operands of one type, and leaves one.
    pub fn select(&mut self) -> Result<(), Stop>
        ensures { Steps (applied Selects self.old) result self.old self.new }
    {
        let Some(frame) = innermost(&self.frames) else {
            return Err(Stop::Refused);
        };
        self.operands.select(frame.base, frame.unknown)
    }

    /// Opens a block, which takes its parameters along.
    pub fn enter(
        &mut self,
        opening: Opening,
        taken: Taken<'a>,
        results: &'a [ValType],
    ) -> Result<(), Stop>
        ensures { Steps (enter opening (signature taken.entry.types.now results.now) (taken_types taken.entry) self.old)
            result self.old self.new }
    {
        let Some(frame) = innermost(&self.frames) else {
            return Err(Stop::Refused);
        };
        if !self.operands.finds(frame.base, frame.unknown, taken)? {
            return Err(Stop::Refused);
        }
        self.operands.make_room(taken.types.len())?;
        self.frames.reserve(1)?;
        let count = count_of(taken.types, taken.condition);
        self.operands.remove(count);
        let base = self.operands.height();
        self.operands.look(base, false);
        self.operands.put(taken.types);
        push_frame(
            &mut self.frames,
            Frame {
                opening,
                params: taken.types,
                results,
                base,
                unknown: false,
                live: frame.live,
            },
        );
        Ok(())
    }

    /// Goes over to the `else` of an `if`.
    pub fn turn(&mut self) -> Result<(), Stop>
        ensures { Steps (turned self.old) result self.old self.new }
    {
        let Some(frame) = innermost(&self.frames) else {
            return Err(Stop::Refused);
        };
        if !awaits_else(frame.opening) {
            return Err(Stop::Refused);
        }
        if !self
            .operands
            .are_just(frame.base, frame.unknown, frame.results)?
        {
            return Err(Stop::Refused);
        }
        self.operands.make_room(frame.params.len())?;
        let outer = self.frames.len() - 1;
        let live = is_live_inside(&self.frames[..outer]);
        self.operands.cut(frame.base);
        self.operands.look(frame.base, false);
        self.operands.put(frame.params);
        let other = Frame {
            opening: Opening::Else,
            unknown: false,
            live,
            ..frame
        };
        replace_innermost(&mut self.frames, other);
        self.live = live;
        Ok(())
    }

    /// Closes a frame, and leaves its results to the one around it.
    pub fn leave(&mut self) -> Result<(), Stop>
        ensures { Steps (ended self.old) result self.old self.new }
    {
        let Some(frame) = innermost(&self.frames) else {
            return Err(Stop::Refused);
        };
        if !self
            .operands
            .are_just(frame.base, frame.unknown, frame.results)?
        {
            return Err(Stop::Refused);
        }
        if !can_end(frame) {
            return Err(Stop::Refused);
        }
        self.operands.make_room(frame.results.len())?;
        let outer = self.frames.len() - 1;
        self.frames.truncate(outer);
        self.operands.cut(frame.base);
        self.live = false;
        if let Some(around) = innermost(&self.frames) {
            self.operands.look(around.base, around.unknown);
            self.operands.put(frame.results);
            self.live = around.live;
        }
        Ok(())
    }
}
