// Which instructions a configuration has.
ghost use Rattle.std.specs.Prelude.{◌≡◌};
ghost use Rattle.cpu.specs.Configured.{binary_configured, immediate_configured, register_configured, configured};

use crate::config::Config;
use crate::processor::Processor;
use crate::unit::Unit;
use isa::{BinaryOp, ImmediateOp, Instruction, RegisterOp};

fn binary_configured(config: &Config, op: BinaryOp) -> bool
    ensures { result ≡ binary_configured config.now op }
{
    match op {
        BinaryOp::Mul => config.has(Unit::Multiplier),
        _ => true,
    }
}

fn immediate_configured(config: &Config, op: ImmediateOp) -> bool
    ensures { result ≡ immediate_configured config.now op }
{
    match op {
        ImmediateOp::Binary(op) => binary_configured(config, op),
        ImmediateOp::High(_) => true,
    }
}

fn register_configured(config: &Config, op: RegisterOp) -> bool
    ensures { result ≡ register_configured config.now op }
{
    match op {
        RegisterOp::Binary(op) => binary_configured(config, op),
        RegisterOp::Shift(_) => config.has(Unit::Shifter),
        RegisterOp::Sub => true,
        RegisterOp::Divide(_) => config.has(Unit::Divider),
    }
}

impl Processor {
    /// Whether the configuration has an instruction.
    pub fn has_configured(&self, instruction: Instruction) -> bool
        ensures value { result ≡ configured self.now.config instruction }
    {
        match instruction {
            Instruction::Immediate { op, .. } => immediate_configured(&self.config, op),
            Instruction::Register { op, .. } => register_configured(&self.config, op),
            Instruction::ShiftImmediate { .. } => self.config.has(Unit::Shifter),
            Instruction::Extend { .. } => self.config.has(Unit::SignExtension),
            _ => true,
        }
    }
}
