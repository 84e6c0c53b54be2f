//! Code that is made in place of longer code.
ghost use Rattle.std.specs.Prelude.{◌≡◌, ℕ, ◌++◌, [], ◌∷◌, List, OnOk};
ghost use Rattle.core_code.specs.Tree.{Tree, in_sequence};
ghost use Rattle.transfer_bodies.specs.Shortening.{IsShort, IsKept};

use core_code::Code;
use racer_base::Memory;
use std::alloc::Global;

/// Code made in place of other code.
#[derive(Drop)]
pub struct Short {
    pub code: Code,
    /// The height of the stack behind it.
    pub height: usize,
    /// Whether it sets no variable and does not return.
    pub is_still: bool,
}

/// What is kept of the parts of a sequence.
#[derive(Drop)]
pub struct Kept {
    pub parts: Vec<Code>,
    /// The height of the stack behind them.
    pub height: usize,
    /// Whether they set no variable and do not return.
    pub is_still: bool,
    /// The number of parts behind which the stack was empty last, unless a part that follows is not still.
    pub still_from: Option<usize>,
}

impl Kept {
    /// No parts, at this height of the stack.
    pub fn new(alloc: Global, height: usize) -> Kept
        ensures kept { IsKept height [] result }
        ensures height { result.height ≡ height }
    {
        Kept {
            parts: Vec::new(alloc),
            height,
            is_still: true,
            still_from: if height == 0 { Some(0) } else { None },
        }
    }

    /// One part more. Where the stack is empty behind it, the still parts since it was empty last fall away.
    pub fn keep(&mut self, part: Short) -> Result<(), Memory>
        ensures kept { OnOk result ((from to : ℕ) (parts : List Tree) (code : Tree) → IsKept from parts self.old →
            IsShort self.old.height to code part → IsKept from (parts ++ code ∷ []) self.new) }
        ensures height { OnOk result (self.new.height ≡ part.height) }
    {
        self.add(part)?;
        if self.height == 0 {
            self.cut();
        }
        Ok(())
    }

    fn add(&mut self, part: Short) -> Result<(), Memory>
        ensures kept { OnOk result ((from to : ℕ) (parts : List Tree) (code : Tree) → IsKept from parts self.old →
            IsShort self.old.height to code part → IsKept from (parts ++ code ∷ []) self.new) }
        ensures height { OnOk result (self.new.height ≡ part.height) }
    {
        let Ok(()) = self.parts.push(part.code) else {
            return Err(Memory);
        };
        self.height = part.height;
        if !part.is_still {
            self.is_still = false;
            self.still_from = None;
        }
        Ok(())
    }

    /// The parts that are kept, as one piece of code.
    pub fn joined(self) -> Short
        ensures { (from to : ℕ) (parts : List Tree) → IsKept from parts self → self.height ≡ to →
            IsShort from to (in_sequence parts) result }
    {
        Short {
            code: Code::Seq(self.parts),
            height: self.height,
            is_still: self.is_still,
        }
    }

    /// Where the stack is empty, takes away the still parts since it was empty last.
    fn cut(&mut self)
        requires { self.old.height ≡ 0 }
        ensures kept { (from : ℕ) (parts : List Tree) → IsKept from parts self.old → IsKept from parts self.new }
        ensures height { self.new.height ≡ self.old.height }
    {
        match self.still_from {
            Some(count) => self.parts.truncate(count),
            None => self.still_from = Some(self.parts.len()),
        }
    }
}
