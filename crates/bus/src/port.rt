// The port: eight device bytes, the words data and strobe, and the list of the bytes that it has sent.
ghost use Rattle.std.specs.Prelude.{◌≡◌, ◌≤◌, [], length, replicate, IfOk, vec_capacity};
ghost use Rattle.bus.specs.Port.{Sender, port_rules};
ghost use Rattle.std.proofs.Common.{rules, arith};

use crate::block::{put_word, word_at};
use crate::fault::{Fault, Layer};
use crate::interface::Bus;
use crate::kind::Kind;
use crate::region::Region;
use crate::size::Size;
use std::alloc::{AllocError, Global};

const DATA: usize = 0;

const STROBE: usize = 4;

const REGION: Region = Region {
    kind: Kind::Device,
    layer: Layer::Port,
};

// `room` is how many bytes the list may take: a `Vec` may have more capacity than was asked for.
#[derive(Drop)]
pub struct Port {
    registers: [u8; 8],
    gone: Vec<u8>,
    room: usize,
    ghost whole: { length registers ≡ 8 },
    ghost reserved: { room ≤ vec_capacity gone },
}

impl Port {
    // A port whose list takes as many bytes as there is room for; its memory is had beforehand.
    pub fn new(heap: Global, room: usize) -> Result<Port, AllocError>
        ensures { IfOk result (λ p. (p.registers ≡ replicate 8 0) × (p.gone.items ≡ []) × (p.room ≡ room)) }
    {
        let gone = Vec::with_capacity(heap, room)?;
        Ok(Port {
            registers: [0; 8],
            gone,
            room,
        })
    }

    // The bytes sent so far.
    pub fn sent(&self) -> &[u8]
        ensures { result.now ≡ self.now.gone.items }
    {
        self.gone.as_slice()
    }
}

impl Bus for Port {
    ghost Mean = { Sender };

    ghost rules = { port_rules };

    ghost means = { λ s. record { registers = s.registers; gone = s.gone.items; room = s.room } };

    ghost sound = { λ _. Unit {0} };

    ghost lawful = { first_of (Prim.search rules, Prim.grind (arith, Self.row.coded.inj)) };

    fn kind(&self, address: u32) -> Kind {
        REGION.kind_at(&self.registers, address)
    }

    fn lines(&self) -> u32 {
        0
    }

    fn read(&mut self, size: Size, address: u32) -> Result<u32, Fault> {
        REGION.read(&self.registers, size, address)
    }

    fn write(&mut self, size: Size, address: u32, value: u32) -> Result<(), Fault> {
        REGION.write(&mut self.registers, size, address, value)
    }

    fn tick(&mut self) {
        let strobe = word_at(&self.registers, STROBE);
        if strobe != 0 && self.gone.len() < self.room {
            let payload = word_at(&self.registers, DATA) % 256;
            self.gone.push_reserved(payload as u8);
            put_word(&mut self.registers, STROBE, 0);
        }
    }
}
