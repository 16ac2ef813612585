//! The labels of a function that are open.

ghost use Rattle.std.specs.Prelude.{◌≡◌, ◌<◌, ◌≤◌, ◌+◌, ◌-◌, ℕ, List, [], ◌∷◌, ◌++◌, length, map, take, OnOk, OnErr, IfOk, slice_index_or};
ghost use Rattle.rv_isa.specs.Words.{word_of};
ghost use Rattle.frame_layout.specs.Slots.{link};
ghost use Rattle.wasm_defs.specs.Places.{Place};
ghost use Rattle.frame_layout.specs.Templates.{EmitContext, label_at, jump_words, jump_if_words, jumps, jump_table_words};
ghost use Rattle.frame_layout.specs.Functions.{over, test_words};
ghost use Rattle.control_emit.specs.Pending.{Ends, shapes, named, patched, all_patched, test_patched, AreWithin, IsTestWithin, AreBelow, TakesTest, jumping};
ghost use Rattle.control_emit.specs.Pending.{fewer, unjumped, all_unjumped, end_at, chain, IsBefore, AreLinked, AreKept};
ghost use Rattle.frame_layout.specs.Macros.{distance, far};
ghost use Rattle.control_emit.specs.Emits.{draft, IsFront, IsHeld, Emits, Opens, Turns, Closes};
ghost use Rattle.control_emit.specs.Walks.{body_label, end_shape, start_shape, IsLive};

use crate::jumps::{
    append_front, append_moves, append_test, append_topmost, append_unless, place_in,
};
use crate::words::far;
use frame_layout::Layout;
use rv_isa::WordBuffer;
use std::alloc::{AllocError, Global};
use std::marker::Model;

/// Most bodies have no more jumps to blocks' ends than so many.
const FIRST_JUMPS: usize = 32;

/// A label that is open. Indices count instruction words from the function's first one.
#[derive(Clone, Copy)]
pub struct Open {
    /// The height below the block.
    base: u32,
    /// How many values a branch takes along.
    takes: u32,
    /// Where a loop begins.
    start: Option<u32>,
    /// The index of the jump of an `if` that had no `else` yet.
    test: Option<u32>,
    /// The last of the jumps to the block's end, by its number among all jumps.
    last_jump: Option<u32>,
}

/// A jump to a block's end, which isn't known yet.
#[derive(Clone, Copy)]
pub struct Jump {
    /// Its index.
    place: u32,
    /// The jump before it to the same end, by its number among all jumps.
    before: Option<u32>,
}

/// Where a jump leads, and what it takes along.
#[derive(Clone, Copy)]
struct Goal {
    base: u32,
    takes: u32,
    start: Option<u32>,
}

/// The open labels of a function, over the instruction words so far, which all calls of one value take. The indices of the jumps
/// whose target isn't known yet are kept in one list: there are no more of them than jumps to blocks' ends.
///
/// Where a call answers that memory ran out, the instruction words and the labels are as they were.
#[derive(Drop)]
pub struct Labels {
    labels: Vec<Open>,
    // Why: docs/DECISIONS.md, "Jumps that wait lie in one list"
    jumps: Vec<Jump>,
}

impl Model for Labels {
    ghost use Rattle.std.specs.Prelude.{List, length};
    ghost use Rattle.control_emit.specs.Pending.{Pending, pending_in, AreKept, AreLinked};

    ghost Value = { List Pending };

    ghost view = { λ l. pending_in l.jumps.items l.labels.items };

    ghost invariant = { λ l. AreKept (length l.jumps.items) l.labels.items × AreLinked l.jumps.items };
}

/// An index or a number in 32 bits. Instruction words that need more take 16 GiB, which counts as out of memory.
fn short(number: usize) -> Result<u32, AllocError>
    ensures { IfOk result (λ n. n ≡ number) }
{
    if 0xFFFF_FFFF < number {
        return Err(AllocError);
    }
    Ok(number as u32)
}

/// Lets the jump at an index lead there.
fn patch(words: &mut WordBuffer, place: u32, there: usize)
    requires { place + 2 ≤ length words.old }
    ensures { words.new ≡ patched there place words.old }
{
    let place = place as usize;
    let [first, second] = far(place, there);
    words.patch(place, first);
    words.patch(place + 1, second);
}

/// A jump and those before it to the same end lead there.
fn patch_all(words: &mut WordBuffer, jumps: &[Jump], last: Option<u32>, there: usize)
    requires linked { AreLinked jumps.now }
    requires last { IsBefore (length jumps.now) last }
    requires places { AreWithin (length words.old) (chain jumps.now (length jumps.now) last) }
    ensures { words.new ≡ all_patched there (chain jumps.now (length jumps.now) last) words.old }
{
    let mut next = last;
    while let Some(number) = next {
        let jump = jumps[number as usize];
        patch(words, jump.place, there);
        next = jump.before;
    }
}

/// The jump of an `if`, if there is one, leads there.
fn patch_test(words: &mut WordBuffer, test: Option<u32>, there: usize)
    requires { IsTestWithin (length words.old) test }
    ensures { words.new ≡ test_patched there test words.old }
{
    match test {
        Some(place) => patch(words, place, there),
        None => {}
    }
}

/// The jump before a label's last one to its block's end. No jump to a loop's label is noted.
fn jump_before(jumps: &[Jump], start: Option<u32>, last: Option<u32>) -> Option<u32>
    requires linked { AreLinked jumps.now }
    requires last { IsBefore (length jumps.now) last }
    ensures chain { chain jumps.now (length jumps.now) result ≡ fewer start (chain jumps.now (length jumps.now) last) }
    ensures last { IsBefore (length jumps.now) result }
{
    if start.is_some() {
        return last;
    }
    match last {
        Some(number) => jumps[number as usize].before,
        None => None,
    }
}

/// Makes room for a jump. Where there is none yet it is for those of most bodies, so that they don't move.
fn make_room(jumps: &mut Vec<Jump>) -> Result<(), AllocError>
    ensures { jumps.new.items ≡ jumps.old.items }
{
    if jumps.is_empty() {
        return jumps.reserve(FIRST_JUMPS);
    }
    Ok(())
}

/// So many jumps, or all up to the one that is named, if those are more.
fn count_with(count: usize, last: Option<u32>) -> usize
    ensures more { count ≤ result }
    ensures named { IsBefore result last }
    ensures fewest { (n : ℕ) → count ≤ n → IsBefore n last → result ≤ n }
{
    match last {
        Some(number) => count.max(number as usize + 1),
        None => count,
    }
}

/// How many jumps there are up to the last one that a label names.
fn count_named(labels: &[Open]) -> usize
    ensures { (n : ℕ) → AreKept n labels.now → (result ≤ n) × AreKept result labels.now }
{
    let mut count = 0;
    for open in labels {
        count = count_with(count, open.last_jump);
    }
    count
}

/// Appends a jump to an index that is known.
fn lead_back(buffer: &mut WordBuffer, place: usize) -> Result<(), AllocError>
    ensures ok { OnOk result (buffer.new ≡ buffer.old ++ map word_of (far (distance (length buffer.old) place))) }
    ensures err { OnErr result (buffer.new ≡ buffer.old) }
{
    let here = buffer.place();
    buffer.append(&far(here, place))
}

/// What a call came to: where memory ran out, only so many instruction words stay.
fn settled(
    buffer: &mut WordBuffer,
    start: usize,
    outcome: Result<(), AllocError>,
) -> Result<(), AllocError>
    requires { start ≤ length buffer.old }
    ensures is { result ≡ outcome }
    ensures ok { OnOk outcome (buffer.new ≡ buffer.old) }
    ensures err { OnErr outcome (buffer.new ≡ take start buffer.old) }
{
    // Why: docs/DECISIONS.md, "Where memory runs out labels are as they were"
    if outcome.is_err() {
        buffer.truncate(start);
    }
    outcome
}

impl Labels {
    /// The label of a function with so many results: it is open till the function's end.
    pub fn new(alloc: Global, values: u32) -> Result<Self, AllocError>
        requires { values < 0x8000_0000 }
        ensures { IfOk result (λ labels. labels ≡ body_label values ∷ []) }
    {
        let mut labels = Vec::new(alloc);
        labels.push(Open {
            base: 0,
            takes: values,
            start: None,
            test: None,
            last_jump: None,
        })?;
        Ok(Labels {
            labels,
            jumps: Vec::new(alloc),
        })
    }

    /// How many labels are open.
    pub fn len(&self) -> usize
        ensures { result ≡ length self.now }
    {
        self.labels.len()
    }

    /// Opens the label of a block, or of an `if` that isn't reachable, which leads to its end. Its base is the height below the
    /// block's parameters, and a branch to it takes so many values along.
    pub fn open_block(
        &mut self,
        buffer: &WordBuffer,
        base: u32,
        values: u32,
    ) -> Result<(), AllocError>
        requires held { IsHeld (draft self.old buffer.now) }
        requires low { base + values < 0x8000_0000 }
        ensures ok { OnOk result (Opens (draft self.old buffer.now) (draft self.new buffer.now) (end_shape base values) (λ e. [])) }
        ensures kept { OnErr result (self.new ≡ self.old) }
    {
        let _ = buffer.place();
        self.labels.push(Open {
            base,
            takes: values,
            start: None,
            test: None,
            last_jump: None,
        })?;
        Ok(())
    }

    /// Opens the label of a loop, which leads here. Its base is the height below the loop's parameters, and a branch to it takes so
    /// many values along.
    pub fn open_loop(
        &mut self,
        buffer: &WordBuffer,
        base: u32,
        values: u32,
    ) -> Result<(), AllocError>
        requires held { IsHeld (draft self.old buffer.now) }
        requires low { base + values < 0x8000_0000 }
        ensures ok { OnOk result (Opens (draft self.old buffer.now) (draft self.new buffer.now) (start_shape base values (length buffer.now)) (λ e. [])) }
        ensures kept { OnErr result (self.new ≡ self.old) }
    {
        let here = short(buffer.place())?;
        self.labels.push(Open {
            base,
            takes: values,
            start: Some(here),
            test: None,
            last_jump: None,
        })?;
        Ok(())
    }

    /// Opens the label of an `if` at a reachable point, which leads to its end, and appends its instruction words. Its condition is
    /// the topmost of so many operands, its base the height below its parameters, and a branch to it takes so many values along.
    pub fn open_if(
        &mut self,
        buffer: &mut WordBuffer,
        layout: &Layout,
        height: u32,
        base: u32,
        values: u32,
    ) -> Result<(), AllocError>
        requires held { IsHeld (draft self.old buffer.old) }
        requires low { base + values < 0x8000_0000 }
        requires high { height < 0x8000_0000 }
        requires slots { link layout.now < 0x7FFF_FFFF }
        ensures ok { (w : EmitContext) → w.layout ≡ layout.now
            → OnOk result (Opens (draft self.old buffer.old) (draft self.new buffer.new) (end_shape base values)
            (λ e. test_words w height (length buffer.old) e.other)) }
        ensures err { OnErr result (buffer.new ≡ buffer.old) }
        ensures kept { OnErr result (self.new ≡ self.old) }
    {
        let test = short(place_in(buffer) + 4)?;
        self.labels.reserve(1)?;
        append_test(buffer, layout, height)?;
        self.labels.push_reserved(Open {
            base,
            takes: values,
            start: None,
            test: Some(test),
            last_jump: None,
        });
        Ok(())
    }

    /// Where a jump to a label leads, and what it takes along.
    fn goal(&self, label: u32) -> Goal
        requires { label < length self.now }
        ensures is { slice_index_or (shapes self.now) label (end_shape 0 0) ≡ record { base = result.base; takes = result.takes; start = result.start } }
        ensures low { result.base + result.takes < 0x8000_0000 }
    {
        let index = self.labels.len() - 1 - label as usize;
        let open = &self.labels[index];
        Goal {
            base: open.base,
            takes: open.takes,
            start: open.start,
        }
    }

    /// How many instruction words the jumps to these labels have, one after the other, wherever the open blocks end: two a jump,
    /// and six for each value that it takes along.
    pub fn jump_words(&self, labels: &[u32]) -> u128
        requires { AreBelow (length self.now) labels.now }
        ensures { (w : EmitContext) (height here : ℕ) (ends : List Ends) → length ends ≡ length self.now
            → result ≡ length (jumps w height here (map (label_at w (named (shapes self.now) ends)) labels.now)) }
    {
        let mut count = 0;
        for label in labels {
            count += 2 + 6 * u128::from(self.goal(*label).takes);
        }
        count
    }

    /// Notes the index of a jump to the end of a label's block.
    fn wait(&mut self, label: u32, place: usize) -> Result<(), AllocError>
        requires { label < length self.old }
        ensures ok { OnOk result (self.new ≡ jumping place label self.old) }
        ensures err { OnErr result (self.new ≡ self.old) }
    {
        let place = short(place)?;
        let number = short(self.jumps.len())?;
        let index = self.labels.len() - 1 - label as usize;
        let open = self.labels[index];
        make_room(&mut self.jumps)?;
        self.jumps.push(Jump {
            place,
            before: open.last_jump,
        })?;
        self.labels[index] = Open {
            last_jump: Some(number),
            ..open
        };
        Ok(())
    }

    /// Takes back the last jump that was noted to the end of a label's block. A loop's label has none.
    fn forget(&mut self, label: u32)
        requires { label < length self.old }
        ensures { self.new ≡ unjumped label self.old }
    {
        let index = self.labels.len() - 1 - label as usize;
        let open = self.labels[index];
        let last_jump = jump_before(self.jumps.as_slice(), open.start, open.last_jump);
        self.labels[index] = Open { last_jump, ..open };
    }

    /// Lets go of the jumps after the last one that a label names.
    fn trim(&mut self)
        ensures { self.new ≡ self.old }
    {
        let count = count_named(self.labels.as_slice());
        self.jumps.truncate(count);
    }

    /// Takes back a jump for each of these labels.
    fn forget_all(&mut self, labels: &[u32])
        requires { AreBelow (length self.old) labels.now }
        ensures { self.new ≡ all_unjumped labels.now self.old }
    {
        for label in labels {
            self.forget(*label);
        }
        self.trim();
    }

    /// Takes the index of the jump of the innermost `if`, if it had no `else` yet.
    fn take_test(&mut self) -> Option<u32>
        requires { 0 < length self.old }
        ensures { TakesTest result self.old self.new }
    {
        let index = self.labels.len() - 1;
        let open = self.labels[index];
        self.labels[index] = Open { test: None, ..open };
        open.test
    }

    /// Appends a jump to the end of a label's block.
    fn lead_behind(&mut self, buffer: &mut WordBuffer, label: u32) -> Result<(), AllocError>
        requires held { IsHeld (draft self.old buffer.old) }
        requires label { label < length self.old }
        ensures ok { OnOk result (Emits (draft self.old buffer.old) (draft self.new buffer.new)
            (λ ends. far (distance (length buffer.old) (end_at label ends)))) }
        ensures noted { OnOk result (self.new ≡ jumping (length buffer.old) label self.old) }
        ensures front { IsFront buffer.old buffer.new }
        ensures err { OnErr result (buffer.new ≡ buffer.old) }
        ensures kept { OnErr result (self.new ≡ self.old) }
    {
        let here = buffer.place();
        lead_back(buffer, here)?;
        let outcome = self.wait(label, here);
        settled(buffer, here, outcome)
    }

    /// Appends a jump to a label, or, if memory runs out, some of its instruction words.
    fn append_jump(
        &mut self,
        buffer: &mut WordBuffer,
        layout: &Layout,
        height: u32,
        label: u32,
    ) -> Result<(), AllocError>
        requires held { IsHeld (draft self.old buffer.old) }
        requires label { label < length self.old }
        requires high { height < 0x8000_0000 }
        requires slots { link layout.now < 0x7FFF_FFFF }
        ensures ok { (w : EmitContext) → w.layout ≡ layout.now
            → OnOk result (Emits (draft self.old buffer.old) (draft self.new buffer.new)
            (λ ends. jump_words w height (length buffer.old) (label_at w (named (shapes self.old) ends) label))) }
        ensures front { IsFront buffer.old buffer.new }
        ensures noted { OnOk result (unjumped label self.new ≡ self.old) }
        ensures kept { OnErr result (self.new ≡ self.old) }
    {
        let goal = self.goal(label);
        let from = height.saturating_sub(goal.takes);
        append_moves(buffer, layout, goal.takes, from, goal.base)?;
        match goal.start {
            Some(place) => lead_back(buffer, place as usize),
            None => self.lead_behind(buffer, label),
        }
    }

    /// Appends a jump to a label, 0 being the innermost, with so many operands on the stack: `br`. Its values are the topmost ones.
    /// Where memory runs out the instruction words and the labels are as they were.
    pub fn jump(
        &mut self,
        buffer: &mut WordBuffer,
        layout: &Layout,
        height: u32,
        label: u32,
    ) -> Result<(), AllocError>
        requires held { IsHeld (draft self.old buffer.old) }
        requires label { label < length self.old }
        requires high { height < 0x8000_0000 }
        requires slots { link layout.now < 0x7FFF_FFFF }
        ensures ok { (w : EmitContext) → w.layout ≡ layout.now
            → OnOk result (Emits (draft self.old buffer.old) (draft self.new buffer.new)
            (λ ends. jump_words w height (length buffer.old) (label_at w (named (shapes self.old) ends) label))) }
        ensures err { OnErr result (buffer.new ≡ buffer.old) }
        ensures kept { OnErr result (self.new ≡ self.old) }
    {
        let start = buffer.place();
        let outcome = self.append_jump(buffer, layout, height, label);
        settled(buffer, start, outcome)
    }

    /// Appends a jump that is made where the topmost operand isn't zero, or, if memory runs out, some of its instruction words.
    fn append_jump_if(
        &mut self,
        buffer: &mut WordBuffer,
        layout: &Layout,
        height: u32,
        label: u32,
    ) -> Result<(), AllocError>
        requires held { IsHeld (draft self.old buffer.old) }
        requires label { label < length self.old }
        requires high { height < 0x8000_0000 }
        requires slots { link layout.now < 0x7FFF_FFFF }
        ensures ok { (w : EmitContext) → w.layout ≡ layout.now
            → OnOk result (Emits (draft self.old buffer.old) (draft self.new buffer.new)
            (λ ends. jump_if_words w height (length buffer.old) (label_at w (named (shapes self.old) ends) label))) }
        ensures front { IsFront buffer.old buffer.new }
        ensures kept { OnErr result (self.new ≡ self.old) }
    {
        let takes = self.goal(label).takes;
        append_topmost(buffer, layout, height)?;
        append_unless(buffer, takes)?;
        self.append_jump(buffer, layout, height.saturating_sub(1), label)
    }

    /// Appends a jump that is made where the topmost operand isn't zero: `br_if`. Where memory runs out the instruction words and
    /// the labels are as they were.
    pub fn jump_if(
        &mut self,
        buffer: &mut WordBuffer,
        layout: &Layout,
        height: u32,
        label: u32,
    ) -> Result<(), AllocError>
        requires held { IsHeld (draft self.old buffer.old) }
        requires label { label < length self.old }
        requires high { height < 0x8000_0000 }
        requires slots { link layout.now < 0x7FFF_FFFF }
        ensures ok { (w : EmitContext) → w.layout ≡ layout.now
            → OnOk result (Emits (draft self.old buffer.old) (draft self.new buffer.new)
            (λ ends. jump_if_words w height (length buffer.old) (label_at w (named (shapes self.old) ends) label))) }
        ensures err { OnErr result (buffer.new ≡ buffer.old) }
        ensures kept { OnErr result (self.new ≡ self.old) }
    {
        let start = buffer.place();
        let outcome = self.append_jump_if(buffer, layout, height, label);
        settled(buffer, start, outcome)
    }

    /// Appends a jump to a label after those to others, or, if memory runs out, some of its instruction words. The jumps to the
    /// others are taken back then.
    fn append_next(
        &mut self,
        buffer: &mut WordBuffer,
        layout: &Layout,
        height: u32,
        others: &[u32],
        label: u32,
    ) -> Result<(), AllocError>
        requires held { IsHeld (draft self.old buffer.old) }
        requires others { AreBelow (length self.old) others.now }
        requires label { label < length self.old }
        requires high { height < 0x8000_0000 }
        requires slots { link layout.now < 0x7FFF_FFFF }
        ensures ok { (w : EmitContext) → w.layout ≡ layout.now
            → OnOk result (Emits (draft self.old buffer.old) (draft self.new buffer.new)
            (λ ends. jump_words w height (length buffer.old) (label_at w (named (shapes self.old) ends) label))) }
        ensures front { IsFront buffer.old buffer.new }
        ensures noted { OnOk result (unjumped label self.new ≡ self.old) }
        ensures err { OnErr result (self.new ≡ all_unjumped others.now self.old) }
    {
        match self.append_jump(buffer, layout, height, label) {
            Ok(()) => Ok(()),
            Err(wanting) => {
                self.forget_all(others);
                Err(wanting)
            }
        }
    }

    /// Appends jumps to labels, one after the other, or, if memory runs out, some of their instruction words.
    fn append_jumps(
        &mut self,
        buffer: &mut WordBuffer,
        layout: &Layout,
        height: u32,
        labels: &[u32],
    ) -> Result<(), AllocError>
        requires held { IsHeld (draft self.old buffer.old) }
        requires labels { AreBelow (length self.old) labels.now }
        requires high { height < 0x8000_0000 }
        requires slots { link layout.now < 0x7FFF_FFFF }
        ensures ok { (w : EmitContext) → w.layout ≡ layout.now
            → OnOk result (Emits (draft self.old buffer.old) (draft self.new buffer.new)
            (λ ends. jumps w height (length buffer.old) (map (label_at w (named (shapes self.old) ends)) labels.now))) }
        ensures front { IsFront buffer.old buffer.new }
        ensures noted { OnOk result (all_unjumped labels.now self.new ≡ self.old) }
        ensures kept { OnErr result (self.new ≡ self.old) }
    {
        for (count, label) in labels.iter().enumerate() {
            self.append_next(buffer, layout, height, &labels[..count], *label)?;
        }
        Ok(())
    }

    /// Appends jumps to labels by an index, or, if memory runs out, some of their instruction words.
    fn append_jump_table(
        &mut self,
        buffer: &mut WordBuffer,
        layout: &Layout,
        height: u32,
        labels: &[u32],
        last: u32,
    ) -> Result<(), AllocError>
        requires held { IsHeld (draft self.old buffer.old) }
        requires labels { AreBelow (length self.old) labels.now }
        requires last { last < length self.old }
        requires high { height < 0x8000_0000 }
        requires slots { link layout.now < 0x7FFF_FFFF }
        ensures ok { (w : EmitContext) → w.layout ≡ layout.now
            → OnOk result (Emits (draft self.old buffer.old) (draft self.new buffer.new)
            (λ ends. jump_table_words w height (length buffer.old) (map (label_at w (named (shapes self.old) ends)) labels.now)
            (label_at w (named (shapes self.old) ends) last))) }
        ensures front { IsFront buffer.old buffer.new }
        ensures kept { OnErr result (self.new ≡ self.old) }
    {
        let takes = self.goal(last).takes;
        append_front(buffer, layout, height, labels.len(), takes)?;
        let below = height.saturating_sub(1);
        self.append_jumps(buffer, layout, below, labels)?;
        self.append_next(buffer, layout, below, labels, last)
    }

    /// Appends jumps to labels by an index, the topmost operand: `br_table`. Where memory runs out the instruction words and the
    /// labels are as they were.
    pub fn jump_table(
        &mut self,
        buffer: &mut WordBuffer,
        layout: &Layout,
        height: u32,
        labels: &[u32],
        last: u32,
    ) -> Result<(), AllocError>
        requires held { IsHeld (draft self.old buffer.old) }
        requires labels { AreBelow (length self.old) labels.now }
        requires last { last < length self.old }
        requires high { height < 0x8000_0000 }
        requires slots { link layout.now < 0x7FFF_FFFF }
        ensures ok { (w : EmitContext) → w.layout ≡ layout.now
            → OnOk result (Emits (draft self.old buffer.old) (draft self.new buffer.new)
            (λ ends. jump_table_words w height (length buffer.old) (map (label_at w (named (shapes self.old) ends)) labels.now)
            (label_at w (named (shapes self.old) ends) last))) }
        ensures err { OnErr result (buffer.new ≡ buffer.old) }
        ensures kept { OnErr result (self.new ≡ self.old) }
    {
        let start = buffer.place();
        let outcome = self.append_jump_table(buffer, layout, height, labels, last);
        settled(buffer, start, outcome)
    }

    /// Appends the jump past the second branch of the innermost `if`, where the end of its first one is reachable.
    fn pass_over(&mut self, buffer: &mut WordBuffer, live: bool) -> Result<(), AllocError>
        requires held { IsHeld (draft self.old buffer.old) }
        requires some { 0 < length self.old }
        ensures ok { (place : Place) → IsLive live place → OnOk result
            (Emits (draft self.old buffer.old) (draft self.new buffer.new) (λ ends. over place (length buffer.old) (end_at 0 ends))) }
        ensures err { OnErr result (buffer.new ≡ buffer.old) }
        ensures kept { OnErr result (self.new ≡ self.old) }
    {
        if live {
            return self.lead_behind(buffer, 0);
        }
        Ok(())
    }

    /// Goes over to the `else` of the innermost `if`. Where the end of its first branch is reachable, a jump to the block's end is
    /// appended. Where memory runs out the instruction words and the labels are as they were.
    pub fn otherwise(&mut self, buffer: &mut WordBuffer, live: bool) -> Result<(), AllocError>
        requires held { IsHeld (draft self.old buffer.old) }
        requires some { 0 < length self.old }
        ensures ok { (place : Place) → IsLive live place → OnOk result
            (Turns (draft self.old buffer.old) (draft self.new buffer.new) (λ end. over place (length buffer.old) end)) }
        ensures err { OnErr result (buffer.new ≡ buffer.old) }
        ensures kept { OnErr result (self.new ≡ self.old) }
    {
        self.pass_over(buffer, live)?;
        let there = buffer.place();
        let test = self.take_test();
        patch_test(buffer, test, there);
        Ok(())
    }

    /// Closes the innermost block: its label leads here, and so do the jumps to it. It takes no memory.
    pub fn close(&mut self, buffer: &mut WordBuffer)
        requires held { IsHeld (draft self.old buffer.old) }
        requires some { 0 < length self.old }
        ensures { Closes (draft self.old buffer.old) (draft self.new buffer.new) }
    {
        let here = buffer.place();
        match self.labels.pop() {
            Some(open) => {
                patch_test(buffer, open.test, here);
                patch_all(buffer, self.jumps.as_slice(), open.last_jump, here);
            }
            None => unreachable!(),
        }
    }
}
