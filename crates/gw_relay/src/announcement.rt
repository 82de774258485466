//! What the gateway announces without being asked (clause 6.6.2).

ghost use Rattle.std.specs.Prelude.{◌≡◌, ◌++◌, false, IfOk, IsOk, OnOk};
ghost use Rattle.gw_relay.specs.Announcement.{announcement, announcement_at, announcements};

use crate::port::{PortState, port_at};
use crate::relay::Relay;
use crate::sends::Sends;
use std::alloc::{AllocError, Global};

impl Relay {
    /// What is announced on the port of this number, from 1, where networks are announced: an I-Am-Router-To-Network
    /// for those that lie another way than by the port, as a broadcast by the gateway. It asks nothing and changes
    /// nothing. The only fault is want of memory; where nothing is announced none is wanted.
    pub fn announce(&self, alloc: Global, port: u8) -> Result<Sends, AllocError>
        ensures sends { IfOk result (λ sends. sends ≡ announcement_at self.now port) }
        ensures silent { self.now.announce ≡ false → IsOk result }
    {
        let mut sends = Sends::new(alloc);
        let Some(state) = port_at(self.ports(), usize::from(port)) else {
            return Ok(sends);
        };
        self.add_announcement(state, &mut sends)?;
        Ok(sends)
    }

    /// What is announced on each port, in order of ports, where networks are announced. It asks nothing and changes
    /// nothing. The only fault is want of memory; where nothing is announced none is wanted.
    pub fn announce_all(&self, alloc: Global) -> Result<Sends, AllocError>
        ensures sends { IfOk result (λ sends. sends ≡ announcements self.now) }
        ensures silent { self.now.announce ≡ false → IsOk result }
    {
        let mut sends = Sends::new(alloc);
        for state in self.ports() {
            self.add_announcement(state, &mut sends)?;
        }
        Ok(sends)
    }

    /// Adds what is announced on a port.
    fn add_announcement(&self, state: &PortState, sends: &mut Sends) -> Result<(), AllocError>
        ensures sends { OnOk result (sends.new ≡ sends.old ++ announcement self.now state.now) }
        ensures silent { self.now.announce ≡ false → IsOk result }
    {
        if !self.announces() {
            return Ok(());
        }
        let networks = self
            .routes()
            .reachable_from(sends.alloc(), state.port.number)?;
        state.add_i_am_router(networks.as_slice(), sends)
    }
}
