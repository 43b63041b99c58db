// Whether an access is let through: the lowest cause is told.
ghost use Rattle.std.specs.Prelude.{◌≡◌};
ghost use Rattle.bus.specs.Rules.{if_aligned, readable, writable};

use crate::fault::{Cause, Fault, Home};
use crate::kind::Kind;
use crate::size::Size;

impl Home {
    pub(crate) fn allow_read(self, size: Size, kind: Kind) -> Result<(), Fault>
        ensures { result ≡ if_aligned size self.address self (readable kind self tt) }
    {
        if !size.is_aligned(self.address) {
            return Err(self.fault(Cause::Misaligned));
        }
        if kind == Kind::Absent {
            return Err(self.fault(Cause::Unmapped));
        }
        Ok(())
    }

    // What may be read may be written, unless it is ROM.
    pub(crate) fn allow_write(self, size: Size, kind: Kind) -> Result<(), Fault>
        ensures { result ≡ if_aligned size self.address self (writable kind self tt) }
    {
        self.allow_read(size, kind)?;
        if kind == Kind::Rom {
            return Err(self.fault(Cause::ReadOnly));
        }
        Ok(())
    }
}
