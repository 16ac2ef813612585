//! Valid bodies of nested control, made by a generator of pseudo-random numbers. Each entry of a loop takes one from a local that begins
//! with 60, and returns where it comes to 0, so that every run ends.

use crate::execution::control::tokens::Token;
use std::alloc::{AllocError, Global};

/// A linear congruential generator of 64 bits.
#[derive(Drop)]
struct Random {
    state: u64,
}

impl Random {
    /// A number below `bound`, or 0 where that is 0.
    fn below(&mut self, bound: u8) -> u8 {
        self.state = self
            .state
            .wrapping_mul(6_364_136_223_846_793_005)
            .wrapping_add(1_442_695_040_888_963_407);
        if bound == 0 {
            0
        } else {
            (self.state / 2_147_483_648 % u64::from(bound)) as u8
        }
    }
}

/// What is open: whether it is a loop, or an `if` that had no `else` yet; whether it has a result; and how many operands are below.
#[derive(Clone, Copy)]
struct Open {
    is_loop: bool,
    may_turn: bool,
    has_result: bool,
    below: usize,
}

impl Open {
    /// Whether a branch to it carries a value.
    fn carries_one(&self) -> bool {
        self.has_result && !self.is_loop
    }

    fn height_at_end(&self) -> usize {
        self.below
            .saturating_add(if self.has_result { 1 } else { 0 })
    }
}

/// The local that loops count down, and the function's own frame, which is never closed before the end.
const COUNTER: u8 = 1;

const OUTERMOST: Open = Open {
    is_loop: false,
    may_turn: false,
    has_result: true,
    below: 0,
};

#[derive(Drop)]
struct Maker {
    random: Random,
    tokens: Vec<Token>,
    open: Vec<Open>,
    height: usize,
}

impl Maker {
    fn innermost(&self) -> Open {
        self.open.last().copied().unwrap_or(OUTERMOST)
    }

    fn push(&mut self, token: Token) -> Result<(), AllocError> {
        self.tokens.push(token)?;
        Ok(())
    }

    /// An operand more: a constant or a local.
    fn push_value(&mut self) -> Result<(), AllocError> {
        let token = match self.random.below(3) {
            0 => Token::Get(0),
            1 => Token::Get(2),
            _ => Token::Const(self.random.below(128)),
        };
        self.height = self.height.saturating_add(1);
        self.push(token)
    }

    /// Brings the height above `below` to this many operands.
    fn settle(&mut self, height: usize) -> Result<(), AllocError> {
        for _ in height..self.height {
            self.push(Token::Drop)?;
        }
        for _ in self.height..height {
            self.push_value()?;
        }
        self.height = height;
        Ok(())
    }

    /// Closes the first branch of an `if`, or what is innermost.
    fn close(&mut self) -> Result<(), AllocError> {
        let innermost = self.innermost();
        let _ = self.open.pop();
        if innermost.may_turn && (innermost.has_result || self.random.below(2) == 0) {
            self.push(Token::Else)?;
            self.height = innermost.below;
            self.open.push(Open {
                may_turn: false,
                ..innermost
            })?;
            return Ok(());
        }
        self.height = innermost.height_at_end();
        self.push(Token::End)
    }

    fn begin(&mut self, token: Token, is_loop: bool, has_result: bool) -> Result<(), AllocError> {
        self.push(token)?;
        self.open.push(Open {
            is_loop,
            may_turn: matches!(token, Token::If(_)),
            has_result,
            below: self.height,
        })?;
        Ok(())
    }

    /// A loop, each entry of which counts down.
    fn begin_loop(&mut self, has_result: bool) -> Result<(), AllocError> {
        self.begin(Token::Loop(has_result), true, has_result)?;
        for token in [
            Token::Get(COUNTER),
            Token::Const(1),
            Token::Sub,
            Token::Tee(COUNTER),
            Token::Eqz,
            Token::If(false),
            Token::Get(2),
            Token::Return,
            Token::End,
        ] {
            self.push(token)?;
        }
        Ok(())
    }

    /// Some label, with whether it carries a value; the function's own one is the outermost.
    fn label(&mut self) -> (u8, bool) {
        let count = self.open.len().min(20) as u8;
        let label = self.random.below(count.saturating_add(1));
        let place = self.open.len().saturating_sub(label as usize);
        let carries_one = match place {
            0 => true,
            _ => match self.open.get(place - 1) {
                Some(open) => open.carries_one(),
                None => true,
            },
        };
        (label, carries_one)
    }

    /// A branch that is always taken, and unreachable code after it.
    fn leave(&mut self) -> Result<(), AllocError> {
        let below = self.innermost().below;
        let (label, carries_one) = self.label();
        if carries_one && self.height <= below {
            self.push_value()?;
        }
        match self.random.below(8) {
            0 => self.push(Token::Unreachable)?,
            1 => {
                self.push_value()?;
                self.push(Token::Return)?;
            }
            2 => {
                self.push_value()?;
                self.push(Token::BrTable(label, label, label))?;
            }
            _ => self.push(Token::Br(label))?,
        }
        if self.random.below(2) == 0 {
            self.push(Token::Add)?;
            self.push(Token::Drop)?;
        }
        self.height = below;
        if self.open.is_empty() {
            return Ok(());
        }
        let height = self.innermost().height_at_end();
        self.settle(height)?;
        self.close()
    }

    /// A branch that is taken by chance, or by an index.
    fn perhaps(&mut self) -> Result<(), AllocError> {
        let below = self.innermost().below;
        let (label, carries_one) = self.label();
        if carries_one && self.height <= below {
            self.push_value()?;
        }
        self.push_value()?;
        self.height = self.height.saturating_sub(1);
        self.push(Token::BrIf(label))
    }

    /// An instruction on what is above the innermost block's operands.
    fn compute(&mut self) -> Result<(), AllocError> {
        let above = self.height.saturating_sub(self.innermost().below);
        match self.random.below(5) {
            0 if above > 0 => {
                self.height = self.height.saturating_sub(1);
                self.push(Token::Set(2))
            }
            1 if above > 1 => {
                self.height = self.height.saturating_sub(1);
                self.push(Token::Add)
            }
            2 if above > 1 => {
                self.height = self.height.saturating_sub(1);
                self.push(Token::Sub)
            }
            3 if above > 0 => self.push(Token::Eqz),
            4 if above > 0 => self.push(Token::Tee(2)),
            _ => self.push_value(),
        }
    }

    fn structure(&mut self) -> Result<(), AllocError> {
        let has_result = self.random.below(2) == 0;
        match self.random.below(3) {
            0 => self.begin(Token::Block(has_result), false, has_result),
            1 => self.begin_loop(has_result),
            _ => {
                self.push_value()?;
                self.height = self.height.saturating_sub(1);
                self.begin(Token::If(has_result), false, has_result)
            }
        }
    }

    fn step(&mut self) -> Result<(), AllocError> {
        match self.random.below(10) {
            0 | 1 => self.structure(),
            2 => self.perhaps(),
            3 if self.open.len() > 1 => self.leave(),
            4 if !self.open.is_empty() => {
                let height = self.innermost().height_at_end();
                self.settle(height)?;
                self.close()
            }
            _ => self.compute(),
        }
    }
}

/// A body of a function with a parameter, two locals and a result.
pub fn body_of(alloc: Global, seed: u64) -> Result<Vec<Token>, AllocError> {
    let mut maker = Maker {
        random: Random { state: seed },
        tokens: Vec::new(alloc),
        open: Vec::new(alloc),
        height: 0,
    };
    maker.push(Token::Const(60))?;
    maker.push(Token::Set(COUNTER))?;
    for _ in 0..60u8 {
        maker.step()?;
    }
    for _ in 0..200u8 {
        if maker.open.is_empty() {
            break;
        }
        let height = maker.innermost().height_at_end();
        maker.settle(height)?;
        maker.close()?;
    }
    maker.settle(1)?;
    maker.push(Token::End)?;
    let Maker { tokens, .. } = maker;
    Ok(tokens)
}
