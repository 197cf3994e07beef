// The floor: a tier with no levels, over any device.
ghost use Rattle.std.specs.Prelude.{◌≡◌, []};
ghost use Rattle.tier.specs.Floors.{floor_model, floor_lawful};

use crate::faults::{DemoteFault, Dropped, LiftFault, Lifted};
use crate::tier::Tier;
use crate::victim::Victim;
use device::{BLOCK, Device, DeviceFault};
use row::Tag;

// A tier with no levels: its stored blocks are the device's.
#[derive(Drop)]
pub struct Floor<D> {
    device: D,
}

impl<D> Floor<D> {
    // The floor over a device.
    pub fn new(device: D) -> Floor<D>
        ensures { result.device ≡ device }
    {
        Floor { device }
    }

    // Ends the floor and gives its device back.
    pub fn into_device(self) -> D
        ensures { result ≡ self.device }
    {
        let Floor { device } = self;
        device
    }
}

impl<D: Device> Tier for Floor<D> {
    ghost model = { λ x. floor_model (D.Source.store x.device) };

    ghost lawful = { λ x. floor_lawful (D.Source.store x.device) (D.Source.lawful x.device) };

    ghost loans = { λ x. D.Device.loans x.device };

    fn blocks(&self) -> u32 {
        self.device.blocks()
    }

    fn is_sound(&self, b: u32) -> bool {
        self.device.is_sound(b)
    }

    fn levels(&self) -> u8 {
        0
    }

    fn capacity(&self, _level: u32) -> Option<u32> {
        None
    }

    fn entry(&self, _level: u32, _place: u32) -> Option<Tag> {
        None
    }

    fn lift(&mut self, _b: u32, buffer: &mut [u8]) -> Result<Option<Lifted>, LiftFault> {
        if buffer.len() != BLOCK {
            return Err(LiftFault::Length);
        }
        Ok(None)
    }

    fn load(&self, b: u32, buffer: &mut [u8]) -> Result<(), DeviceFault> {
        self.device.read(b, buffer)
    }

    fn save(&mut self, b: u32, bytes: &[u8]) -> Result<(), DeviceFault> {
        self.device.write(b, bytes)
    }

    // An unsaved block is written, a saved one is let go.
    fn demote(&mut self, victim: Victim, bytes: &[u8]) -> Result<(), DemoteFault> {
        if bytes.len() != BLOCK {
            return Err(DemoteFault::Length(victim));
        }
        let (block, mark) = victim.open();
        if mark.is_saved() {
            return Ok(());
        }
        self.device.write(block, bytes).map_err(|fault| {
            DemoteFault::Dropped(Dropped {
                block,
                fault,
                level: 0,
            })
        })
    }

    fn sync(&mut self) -> Result<(), Dropped> {
        Ok(())
    }
}
