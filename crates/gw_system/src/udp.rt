//! The UDP sockets of the system.

ghost use Rattle.std.specs.Prelude.{◌≡◌, ◌≤◌, ℕ, ⊤, length, IfErr, IfOk};
ghost use Rattle.gw_addr.specs.declared.TheConstants.{MAX_PORTS};
ghost use Rattle.gw_system.specs.Host.{IsSocketFailure};
ghost use Rattle.gw_wire.specs.Socket.{FitsBuffer};

use crate::opening::{SocketFailure, Step};
use gw_addr::BipAddr;
use gw_configuration::Port;
use gw_wire::{RECEIVE_ROOM, Sock, SockFault, SockPair, Watch};
use mio::net::UdpSocket;
use mio::{Interest, Registry, Token};
use std::alloc::Global;
use std::io;
use std::io::ErrorKind;
use std::net::{Ipv4Addr, Net, SocketAddr, SocketAddrV4};

/// A UDP socket of the system, which never waits.
#[derive(Drop)]
pub struct UdpSock {
    socket: UdpSocket,
    looks: u64,
    empty: bool,
}

impl UdpSock {
    /// Opens a socket at an address. An `Err` where the system doesn't: it has no such address,
    /// another socket has it, or it isn't permitted.
    pub fn open(net: &impl Net, address: BipAddr) -> io::Result<Self> {
        let socket = UdpSocket::bind(net, socket_address(address))?;
        Ok(UdpSock {
            socket,
            looks: 0,
            empty: false,
        })
    }

    /// Lets it send to broadcast addresses. An `Err` where the system doesn't.
    pub fn allow_broadcasts(&self) -> io::Result<()> {
        self.socket.set_broadcast(true)
    }

    /// Registers the socket for readability, under this number among all sockets. An `Err` where
    /// the system doesn't take it.
    pub fn register(&mut self, registry: &Registry, number: usize) -> io::Result<()> {
        registry.register(&mut self.socket, Token(number), Interest::READABLE)
    }

    /// What waits at it.
    fn take(&self, buf: &mut [u8; RECEIVE_ROOM]) -> Result<Option<(usize, BipAddr)>, SockFault>
        ensures { FitsBuffer result }
    {
        match self.socket.recv_from(buf) {
            Ok((len, SocketAddr::V4(from))) => Ok(Some((len, address_of(from)))),
            Ok((_, SocketAddr::V6(_))) => Err(SockFault::Failed),
            Err(error) => match error.kind() {
                ErrorKind::WouldBlock => Ok(None),
                _ => Err(SockFault::Failed),
            },
        }
    }
}

/// Opens the sockets of a port: that of its own address, which may send broadcasts, and then that of
/// its broadcast address. Each is asked only while something may wait there.
fn open_pair(
    net: &impl Net,
    number: u8,
    port: &Port,
) -> Result<SockPair<Watch<UdpSock>>, SocketFailure>
    requires least { 1 ≤ number }
    ensures { (ports : ℕ) → number ≤ ports → IfErr result (IsSocketFailure ports) }
{
    let own = match open_own(net, port.address) {
        Ok(own) => own,
        Err(error) => return Err(SocketFailure::at(number, Step::Own, port.address, &error)),
    };
    match UdpSock::open(net, port.broadcast) {
        Ok(broadcast) => Ok(SockPair {
            own: Watch::new(own),
            broadcast: Watch::new(broadcast),
        }),
        Err(error) => { Err(SocketFailure::at(number, Step::Broadcast, port.broadcast, &error)) }
    }
}

/// Opens a socket at a port's own address, which may send broadcasts.
fn open_own(net: &impl Net, address: BipAddr) -> io::Result<UdpSock> {
    let own = UdpSock::open(net, address)?;
    own.allow_broadcasts()?;
    Ok(own)
}

/// Opens the sockets of these ports, at most 8, in their order. Faults: `Failed`, of the first that
/// the system doesn't open, with the port, the step, the address and the reason; and `Memory`.
pub fn open_pairs(
    alloc: Global,
    net: &impl Net,
    ports: &[Port],
) -> Result<Vec<SockPair<Watch<UdpSock>>>, SocketFailure>
    requires { length ports.now ≤ MAX_PORTS }
    ensures count { IfOk result (λ pairs. length pairs.items ≡ length ports.now) }
    ensures failure { IfErr result (IsSocketFailure (length ports.now)) }
{
    let mut pairs = Vec::new(alloc);
    for place in 0..ports.len() {
        let pair = open_pair(net, place as u8 + 1, &ports[place])?;
        if pairs.push(pair).is_err() {
            return Err(SocketFailure::Memory);
        }
    }
    Ok(pairs)
}

impl Sock for UdpSock {
    ghost look_count = { λ s. s.looks };

    ghost is_empty = { λ s. s.empty };

    ghost Answered = { λ _ _ _ _. ⊤ };

    ghost Sent = { λ _ _ _ _ _. ⊤ };

    fn receive(
        &mut self,
        buf: &mut [u8; RECEIVE_ROOM],
    ) -> Result<Option<(usize, BipAddr)>, SockFault> {
        let answer = self.take(buf);
        self.looks = self.looks.wrapping_add(1);
        self.empty = matches!(answer, Ok(None));
        answer
    }

    fn send_to(&mut self, to: BipAddr, octets: &[u8]) -> Result<(), SockFault> {
        match self.socket.send_to(octets, socket_address(to)) {
            Ok(sent) if sent == octets.len() => Ok(()),
            _ => Err(SockFault::Failed),
        }
    }

    fn looks(&self) -> u64 {
        self.looks
    }

    fn empty(&self) -> bool {
        self.empty
    }
}

/// A node as the system writes its address.
fn socket_address(node: BipAddr) -> SocketAddr {
    SocketAddr::V4(SocketAddrV4::new(Ipv4Addr::from_octets(node.ip), node.udp))
}

/// The node of an address of the system.
fn address_of(address: SocketAddrV4) -> BipAddr {
    BipAddr {
        ip: address.ip().octets(),
        udp: address.port(),
    }
}
