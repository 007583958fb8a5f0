// A cable over a device of any kind, which can be pulled and plugged.
ghost use Rattle.std.specs.Prelude.{◌≡◌, true};
ghost use Rattle.devices.specs.Cables.{cable_value, cable_model};

use ps2::device::Device;
use ps2::entry::Entry;
use ps2::event::Event;
use ps2::refusal::Refusal;

#[derive(Drop)]
pub struct Cable<D> {
    // there while the cable is pulled, too
    below: D,
    plugged: bool,
}

impl<D: Device> Cable<D> {
    // A plugged cable over a device as it stands.
    pub fn new(below: D) -> Cable<D>
        ensures { (cable_model D.Device.model).meaning result ≡ cable_value D.Device.model.kind true (D.Device.model.meaning below) }
    {
        Cable {
            below,
            plugged: true,
        }
    }
}

impl<D: Device> Device for Cable<D> {
    ghost model = { cable_model D.Device.model };

    fn power_up(&mut self) {
        self.plugged = true;
        self.below.power_up();
    }

    fn waits(&self) -> bool {
        self.plugged && self.below.waits()
    }

    fn give(&mut self) -> Option<Entry> {
        if self.plugged {
            self.below.give()
        } else {
            None
        }
    }

    fn receive(&mut self, byte: u8) -> bool {
        self.plugged && self.below.receive(byte)
    }

    fn event(&mut self, event: Event<'_>) -> Result<(), Refusal> {
        match event {
            Event::Pull => {
                self.plugged = false;
                Ok(())
            }
            Event::Plug if self.plugged => Ok(()),
            Event::Plug => {
                self.power_up();
                Ok(())
            }
            _ => {
                if self.plugged {
                    self.below.event(event)
                } else {
                    Ok(())
                }
            }
        }
    }
}
