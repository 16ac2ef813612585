//! A plain interpreter of bodies by the reduction rules: operands, open labels, and the index of the next instruction.

use crate::execution::control::tokens::{Token, number_of};
use std::alloc::{AllocError, Global};

/// How a run ends; where it traps, at which of the tokens. `Lost` is for bodies that no validation passes, and for runs of too
/// many reductions.
pub enum End {
    Returned(i32),
    Trapped(usize),
    Lost(&'static str),
}

/// An open label: how many values a branch to it carries, how many operands are below, and where a branch goes on. A loop's label goes on
/// at the loop itself, which opens it again.
#[derive(Clone, Copy)]
struct Label {
    carries_one: bool,
    below: usize,
    target: usize,
}

#[derive(Drop)]
struct Machine<'a> {
    tokens: &'a [Token],
    locals: [i32; 3],
    operands: Vec<i32>,
    labels: Vec<Label>,
    next: usize,
}

/// What one reduction comes to; `None` where no rule applies.
enum Step {
    Goes,
    Ends(End),
}

/// The index after the `end` of what is open at an index, or after its `else` where that is asked for and comes first.
fn place_behind(tokens: &[Token], from: usize, stops_at_else: bool) -> usize {
    let mut depth = 0usize;
    for place in from..tokens.len() {
        match tokens[place] {
            Token::Block(_) | Token::Loop(_) | Token::If(_) => depth = depth.saturating_add(1),
            Token::Else if stops_at_else && depth == 0 => return place + 1,
            Token::End if depth == 0 => return place + 1,
            Token::End => depth = depth.saturating_sub(1),
            _ => {}
        }
    }
    tokens.len()
}

impl Machine<'_> {
    fn pop(&mut self) -> Option<i32> {
        self.operands.pop()
    }

    fn local(&self, index: u8) -> Option<i32> {
        self.locals.get(index as usize).copied()
    }

    fn set(&mut self, index: u8, value: i32) {
        if (index as usize) < 3 {
            self.locals[index as usize] = value;
        }
    }

    /// Opens a label, whose branches go on at an index.
    fn open(&mut self, carries_one: bool, target: usize) -> Result<(), AllocError> {
        self.labels.push(Label {
            carries_one,
            below: self.operands.len(),
            target,
        })?;
        Ok(())
    }

    /// A branch to a label, 0 being the innermost: its value is carried, what is above the label's operands goes, and so do the labels
    /// inside, and the label itself.
    fn branch(&mut self, label: usize) -> Result<Option<()>, AllocError> {
        for _ in 0..label {
            let _ = self.labels.pop();
        }
        let Some(goal) = self.labels.pop() else {
            return Ok(None);
        };
        let carried = if goal.carries_one { self.pop() } else { None };
        self.operands.truncate(goal.below);
        if let Some(value) = carried {
            self.operands.push(value)?;
        }
        self.next = goal.target;
        Ok(Some(()))
    }

    /// Enters a branch of an `if` whose first instruction is at `first`.
    fn choose(&mut self, has_result: bool, first: usize) -> Result<Option<()>, AllocError> {
        let Some(condition) = self.pop() else {
            return Ok(None);
        };
        let behind = place_behind(self.tokens, first, false);
        let otherwise = place_behind(self.tokens, first, true);
        self.open(has_result, behind)?;
        if condition == 0 && otherwise == behind {
            let _ = self.labels.pop();
            self.next = behind;
        } else if condition == 0 {
            self.next = otherwise;
        }
        Ok(Some(()))
    }

    /// A structured instruction or a branch; the index is the next one's already.
    fn control(&mut self, token: Token) -> Result<Option<()>, AllocError> {
        let place = self.next;
        match token {
            Token::Block(has_result) => {
                let behind = place_behind(self.tokens, place, false);
                self.open(has_result, behind)?;
                Ok(Some(()))
            }
            Token::Loop(_) => {
                self.open(false, place.saturating_sub(1))?;
                Ok(Some(()))
            }
            Token::If(has_result) => self.choose(has_result, place),
            Token::Else => {
                self.next = place_behind(self.tokens, place, false);
                Ok(self.labels.pop().map(|_| ()))
            }
            Token::End => Ok(self.labels.pop().map(|_| ())),
            Token::Br(label) => self.branch(label as usize),
            Token::BrIf(label) => match self.pop() {
                None => Ok(None),
                Some(0) => Ok(Some(())),
                Some(_) => self.branch(label as usize),
            },
            Token::BrTable(first, second, last) => match self.pop() {
                None => Ok(None),
                Some(0) => self.branch(first as usize),
                Some(1) => self.branch(second as usize),
                Some(_) => self.branch(last as usize),
            },
            _ => {
                let outermost = self.labels.len().saturating_sub(1);
                self.branch(outermost)
            }
        }
    }

    /// An instruction without labels; `None` where it is none of these, or an operand isn't there.
    fn simple(&mut self, token: Token) -> Result<Option<()>, AllocError> {
        let value = match token {
            Token::Const(bits) => Some(number_of(bits)),
            Token::Get(local) => self.local(local),
            Token::Tee(local) => {
                let value = self.pop();
                self.set(local, value.unwrap_or(0));
                value
            }
            Token::Add => match (self.pop(), self.pop()) {
                (Some(b), Some(a)) => Some(a.wrapping_add(b)),
                _ => None,
            },
            Token::Sub => match (self.pop(), self.pop()) {
                (Some(b), Some(a)) => Some(a.wrapping_sub(b)),
                _ => None,
            },
            Token::Eqz => self.pop().map(|value| if value == 0 { 1 } else { 0 }),
            _ => None,
        };
        match value {
            Some(value) => {
                self.operands.push(value)?;
                Ok(Some(()))
            }
            None => Ok(None),
        }
    }

    fn step(&mut self) -> Result<Option<Step>, AllocError> {
        let Some(token) = self.tokens.get(self.next).copied() else {
            return Ok(self.pop().map(|value| Step::Ends(End::Returned(value))));
        };
        self.next = self.next.saturating_add(1);
        let went = match token {
            Token::Unreachable => {
                let at = self.next.saturating_sub(1);
                return Ok(Some(Step::Ends(End::Trapped(at))));
            }
            Token::Drop => self.pop().map(|_| ()),
            Token::Set(local) => match self.pop() {
                Some(value) => {
                    self.set(local, value);
                    Some(())
                }
                None => None,
            },
            Token::Const(_)
            | Token::Get(_)
            | Token::Tee(_)
            | Token::Add
            | Token::Sub
            | Token::Eqz => self.simple(token)?,
            _ => self.control(token)?,
        };
        Ok(went.map(|_| Step::Goes))
    }
}

/// How a body's run ends for an argument. The body's own label is the outermost one.
pub fn run_of(
    alloc: Global,
    tokens: &[Token],
    argument: i32,
    most: usize,
) -> Result<End, AllocError> {
    let mut machine = Machine {
        tokens,
        locals: [argument, 0, 0],
        operands: Vec::new(alloc),
        labels: Vec::new(alloc),
        next: 0,
    };
    machine.open(true, tokens.len())?;
    for _ in 0..most {
        match machine.step()? {
            Some(Step::Goes) => {}
            Some(Step::Ends(end)) => return Ok(end),
            None => return Ok(End::Lost("no rule applies")),
        }
    }
    Ok(End::Lost("too many reductions"))
}
