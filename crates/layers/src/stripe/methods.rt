// What a stripe does.
ghost use Rattle.std.specs.Prelude.{◌≡◌, length, is_ok, if◌then◌else◌, Ok};
ghost use Rattle.device.specs.Answers.{answer, written};
ghost use Rattle.device.specs.Loans.{Loans};
ghost use Rattle.layers.specs.Stripes.{striped, home, unit_answer as answered};
ghost use Rattle.layers.specs.Striped.{striped_lawful as lawfully};

use crate::home::Home;
use crate::stripe::Stripe;
use crate::unit::{Unit, UnitFault};
use device::{Device, DeviceFault, Source, admit};

impl<D, E> Stripe<D, E> {
    // A stripe of this unit.
    pub fn with_unit(first: D, second: E, unit: Unit) -> Stripe<D, E>
        ensures first { result.first ≡ first }
        ensures second { result.second ≡ second }
        ensures unit { result.unit ≡ unit }
    {
        Stripe {
            first,
            second,
            unit,
        }
    }

    // A stripe of unit 1.
    pub fn new(first: D, second: E) -> Stripe<D, E>
        ensures first { result.first ≡ first }
        ensures second { result.second ≡ second }
        ensures unit { result.unit ≡ 1 }
    {
        Stripe::with_unit(first, second, Unit::ONE)
    }

    // Sets the unit, from 1 to 64.
    pub fn set_unit(&mut self, unit: u32) -> Result<(), UnitFault>
        ensures answer { result ≡ answered unit }
        ensures unit { self.new.unit ≡ (if is_ok result then unit else self.old.unit) }
        ensures first { self.new.first ≡ self.old.first }
        ensures second { self.new.second ≡ self.old.second }
    {
        self.unit = Unit::try_from(unit)?;
        Ok(())
    }

    // Where block `b` lies.
    pub fn home(&self, b: u32) -> Home
        ensures { result ≡ home self.now.unit b }
    {
        self.unit.home(b)
    }
}

impl<D: Source, E: Source> Source for Stripe<D, E> {
    ghost store = { λ x. striped x.unit (D.Source.store x.first) (E.Source.store x.second) };

    ghost lawful = { λ x. lawfully x.unit (D.Source.store x.first) (E.Source.store x.second) (D.Source.lawful x.first) (E.Source.lawful x.second) };

    fn blocks(&self) -> u32 {
        self.unit
            .striped_blocks(self.first.blocks(), self.second.blocks())
    }

    fn is_sound(&self, b: u32) -> bool {
        b < self.blocks()
            && match self.home(b) {
                Home::First(n) => self.first.is_sound(n),
                Home::Second(n) => self.second.is_sound(n),
            }
    }

    fn read(&self, b: u32, buffer: &mut [u8]) -> Result<(), DeviceFault> {
        admit(buffer.len(), b, self.blocks(), self.is_sound(b))?;
        match self.home(b) {
            Home::First(n) => self.first.read(n, buffer),
            Home::Second(n) => self.second.read(n, buffer),
        }
    }
}

impl<D: Device, E: Device> Stripe<D, E> {
    // Writes block `b`, which was admitted, where it lies.
    fn write_home(&mut self, b: u32, bytes: &[u8]) -> Result<(), DeviceFault>
        requires { answer (⟦<Stripe<D, E> as Source>⟧.store self.old) b (length bytes.now) ≡ Ok tt }
        ensures answer { result ≡ answer (⟦<Stripe<D, E> as Source>⟧.store self.old) b (length bytes.now) }
        ensures after { ⟦<Stripe<D, E> as Source>⟧.store self.new ≡ written (⟦<Stripe<D, E> as Source>⟧.store self.old) b bytes.now }
        ensures loans { ⟦<Stripe<D, E> as Device>⟧.loans self.new ≡ ⟦<Stripe<D, E> as Device>⟧.loans self.old }
    {
        match self.home(b) {
            Home::First(n) => self.first.write(n, bytes),
            Home::Second(n) => self.second.write(n, bytes),
        }
    }
}

impl<D: Device, E: Device> Device for Stripe<D, E> {
    ghost loans = { λ x. Loans.striped x.unit (D.Device.loans x.first) (E.Device.loans x.second) };

    fn write(&mut self, b: u32, bytes: &[u8]) -> Result<(), DeviceFault> {
        admit(bytes.len(), b, self.blocks(), self.is_sound(b))?;
        self.write_home(b, bytes)
    }
}
