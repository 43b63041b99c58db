// The bus: RAM of 4096 bytes behind a cache, then the timer on line 0, and the port with room for 64 bytes.
ghost use Rattle.std.specs.Prelude.{◌≡◌, replicate, IfOk};
ghost use Rattle.layout.specs.Meaning.{first_meaning};

use bus::{Bus, Cache, Fork, Port, Ram, Timer};
use std::alloc::{AllocError, Global};

pub type BoardBus = Fork<Cache<Ram>, Fork<Timer, Port>>;

const MEMORY: usize = 4096;

// The bus as it is first, its memory all zero.
pub fn board_bus(heap: Global) -> Result<BoardBus, AllocError>
    ensures meaning { IfOk result (λ b. ⟦<BoardBus as Bus>⟧.means b ≡ first_meaning (replicate 4096 0)) }
    ensures sound { IfOk result ⟦<BoardBus as Bus>⟧.sound }
{
    let bytes = vec![in heap; 0; MEMORY]?;
    let devices = Fork::new(Timer::new(0), Port::new(heap, 64)?, 16);
    Ok(Fork::new(Cache::new(Ram::new(bytes)), devices, 4096))
}
