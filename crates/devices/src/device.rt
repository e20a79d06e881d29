//! A device: its mode, and how often it ran.
ghost use Rattle.devices.specs.Devices.{device_after, is_taken, untaken_leaves};

use rnlp_lock::{Editable, Law};
use std::alloc::{AllocError, Global};

/// What a device is fit for.
#[derive(Clone, Copy)]
pub enum Mode {
    Off,
    Ready,
    Worn,
}

/// A device.
#[derive(Clone, Copy)]
pub struct Device {
    pub mode: Mode,
    pub runs: u64,
}

/// A change of it.
#[derive(Clone, Copy)]
pub enum Change {
    /// It runs once, if it is ready.
    Run,
    /// It is in this mode from now on.
    Turn(Mode),
}

impl Editable for Device {
    type Edit = Change;

    ghost after = { device_after };

    ghost taken = { is_taken };

    ghost number = { λ device. device.runs };

    ghost untaken = { untaken_leaves };

    fn apply(&mut self, change: &Change) -> bool {
        match *change {
            Change::Run => {
                if !matches!(self.mode, Mode::Ready) || self.runs == u64::MAX {
                    return false;
                }
                self.runs += 1;
                true
            }
            Change::Turn(mode) => {
                self.mode = mode;
                true
            }
        }
    }

    fn copy(&self, _alloc: Global) -> Result<Device, AllocError> {
        Ok(*self)
    }

    fn shown(&self) -> u64 {
        self.runs
    }
}

impl Law for Device {
    ghost keeps = { λ values acts allowed right held. tt };
}
