//! A device of std with its count of faults.

ghost use Rattle.std.specs.Prelude.{◌≡◌};

use std::marker::Model;

/// A device of std, and how often it has failed.
#[derive(Debug, Drop)]
pub struct Adapted<D> {
    pub(crate) device: D,
    pub(crate) faults: u64,
}

impl<D> Model for Adapted<D> {
    ghost use Rattle.amt_ports.specs.AdaptedDevice.{AdaptedDevice};

    ghost Value = { AdaptedDevice D };

    ghost view = { λ a. record { device = a.device; faults = a.faults } };
}

impl<D: Drop> Adapted<D> {
    pub fn new(device: D) -> Self
        ensures device { result.device ≡ device }
        ensures faults { result.faults ≡ 0 }
    {
        Adapted { device, faults: 0 }
    }

    pub fn faults(&self) -> u64
        ensures { result ≡ self.now.faults }
    {
        self.faults
    }
}
