// A device that is lent for writing is a device: what stands over it hands every call on.
ghost use Rattle.std.specs.Prelude.{◌≡◌};
ghost use Rattle.device.specs.Loans.{lent};

use crate::fault::DeviceFault;
use crate::source::{Device, Source};

impl<'a, D: Source> Source for &'a mut D {
    ghost store = { λ x. D.Source.store x.now };

    ghost lawful = { λ x. D.Source.lawful x.now };

    fn blocks(&self) -> u32 {
        (**self).blocks()
    }

    fn is_sound(&self, b: u32) -> bool {
        (**self).is_sound(b)
    }

    fn read(&self, b: u32, buffer: &mut [u8]) -> Result<(), DeviceFault> {
        (**self).read(b, buffer)
    }
}

impl<'a, D: Device> Device for &'a mut D {
    ghost loans = { λ x. lent x.ghost_name (D.Device.loans x.now) };

    fn write(&mut self, b: u32, bytes: &[u8]) -> Result<(), DeviceFault> {
        (**self).write(b, bytes)
    }
}
