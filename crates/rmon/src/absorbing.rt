//! How an image takes a change. It never fails.
use crate::fitting::fits;
use crate::image::{Change, Image};
use left_right::Absorb;
use rmodel::Machine;
use std::alloc::AllocError;

impl Absorb<Change> for Image {
    ghost use Rattle.rmon.specs.Images.{absorbed};

    type State = Image;

    ghost state = { λ image. image };

    ghost applied = { absorbed };

    ghost never_fails = { Unit {0} };

    fn absorb_first(&mut self, change: &Change, _other: &Image) -> Result<(), AllocError> {
        match change {
            Change::Take(event) => {
                // An event that may not come would change nothing. No such event is fed.
                if fits(&self.machine, event) {
                    let _ = self.machine.step(*event);
                }
            }
            Change::Reach(front) => self.front = front.again(),
        }
        Ok(())
    }
}
