// A block of bytes as a bus: the kind of its addresses, and the layer that its faults tell.
ghost use Rattle.std.specs.Prelude.{◌≡◌};
ghost use Rattle.bus.specs.Block.{covered, block_rules};
ghost use Rattle.bus.specs.Rules.{read_answer, write_answer, written};

use crate::block::{number_at, put_number};
use crate::fault::{Fault, Layer};
use crate::kind::Kind;
use crate::size::Size;

#[derive(Clone, Copy)]
pub(crate) struct Region {
    pub(crate) kind: Kind,
    pub(crate) layer: Layer,
}

impl Region {
    // Whole words are of the region, and what is past them is not there.
    pub(crate) fn kind_at(self, bytes: &[u8], address: u32) -> Kind
        ensures { result ≡ covered self.kind bytes.now address }
    {
        if (address as usize) < bytes.len() / 4 * 4 {
            self.kind
        } else {
            Kind::Absent
        }
    }

    pub(crate) fn read(self, bytes: &[u8], size: Size, address: u32) -> Result<u32, Fault>
        ensures { result ≡ read_answer (block_rules self.kind self.layer) bytes.now size address }
    {
        let kind = self.kind_at(bytes, address);
        self.layer.at(address).allow_read(size, kind)?;
        Ok(number_at(bytes, address as usize, size))
    }

    pub(crate) fn write(
        self,
        bytes: &mut [u8],
        size: Size,
        address: u32,
        value: u32,
    ) -> Result<(), Fault>
        ensures bytes { bytes.new ≡ written (block_rules self.kind self.layer) bytes.old size address value }
        ensures answer { result ≡ write_answer (block_rules self.kind self.layer) bytes.old size address }
    {
        let kind = self.kind_at(bytes, address);
        self.layer.at(address).allow_write(size, kind)?;
        put_number(bytes, address as usize, size, value);
        Ok(())
    }
}
