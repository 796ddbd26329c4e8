//! What stands in the request queue of a channel, and what the channel does with it.
ghost use Rattle.ddr_world.specs.Items.{MayTake, Takes};

use ddr_address_map::request::Req;
use ddr_channel::channel::Channel;

/// A request, or the word of a port that it has no more.
#[derive(Debug, Drop)]
pub enum Item {
    Request(Req),
    /// The End of the port with this number, its last word: nothing comes after it.
    End(u32),
}

impl Item {
    /// The step of a channel that takes the item: it admits the request, or notes the port's End.
    pub fn take_in(self, channel: &mut Channel, noted: &mut [bool])
        requires { MayTake self channel.old noted.old }
        ensures { Takes self channel.old channel.new noted.old noted.new }
    {
        match self {
            Item::Request(request) => channel.admit(request).unwrap(),
            Item::End(port) => noted[port as usize] = true,
        }
    }
}
