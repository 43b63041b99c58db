// Where the program goes on.
ghost use Rattle.std.specs.Prelude.{◌≡◌};
ghost use Rattle.cpu.specs.Flow.{following, advanced, resulting, reached, branched, linked, returned, jumped, jumped_by};

use crate::enable::Enable;
use crate::processor::Processor;
use alu::compare::branch_taken;
use alu::extend::{sign_extend_26, sign_extend_half};
use isa::{BranchOp, JumpOp, Offset26, Register};

fn reach(pc: u32, offset: u32) -> u32
    ensures { result ≡ reached pc offset }
{
    pc.wrapping_add(offset.wrapping_mul(4))
}

impl Enable {
    // What a jump to a register does to the enable bits: eret and bret bring one back.
    fn bring_back(&mut self, op: JumpOp, target: Register)
        ensures { self.new ≡ returned op target self.old }
    {
        match op {
            JumpOp::B if target.number == 30 => self.ie = self.eie,
            JumpOp::B if target.number == 31 => self.ie = self.bie,
            JumpOp::B | JumpOp::Call => {}
        }
    }
}

impl Processor {
    /// On to the next instruction.
    pub fn advance(&mut self)
        ensures state { self.new ≡ advanced self.old }
    {
        self.pc = self.pc.wrapping_add(4);
    }

    /// A value into a register, and on to the next instruction.
    pub fn result(&mut self, to: Register, value: u32)
        ensures state { self.new ≡ resulting self.old to value }
    {
        self.set(to, value);
        self.advance();
    }

    pub fn branch(&mut self, op: BranchOp, left: Register, right: Register, offset: u16)
        ensures state { self.new ≡ branched self.old op left right offset }
    {
        if branch_taken(op, self.get(left), self.get(right)) {
            self.pc = reach(self.pc, sign_extend_half(offset));
        } else {
            self.advance();
        }
    }

    fn link(&mut self, op: JumpOp)
        ensures { self.new ≡ linked op self.old }
    {
        match op {
            JumpOp::B => {}
            JumpOp::Call => self.registers[29] = self.pc.wrapping_add(4),
        }
    }

    pub fn jump(&mut self, op: JumpOp, target: Register)
        ensures state { self.new ≡ jumped self.old op target }
    {
        let address = self.get(target);
        self.link(op);
        self.status.enable.bring_back(op, target);
        self.pc = address / 4 * 4;
    }

    pub fn jump_by(&mut self, op: JumpOp, offset: Offset26)
        ensures state { self.new ≡ jumped_by self.old op offset.bits }
    {
        self.link(op);
        self.pc = reach(self.pc, sign_extend_26(offset.bits));
    }
}
