// The configuration: everything but the optional units that the emulator lacks, one interrupt line, four breakpoint registers.
ghost use Rattle.std.specs.Prelude.{◌≡◌};
ghost use Rattle.cpu.specs.Config.{configuration};

use cpu::{Config, vet};

// What every general register holds at first.
pub const FIRST_REGISTERS: [u32; 32] = [0xA5A5_A5A5; 32];

pub fn board_config() -> Config
    ensures value { result ≡ configuration 0x00101137 0x00000000 0x00000800 }
{
    vet(0x0010_1137, 0x0000_0000, 0x0000_0800).unwrap()
}
