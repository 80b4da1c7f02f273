ghost use Rattle.std.specs.Prelude.{◌≡◌, ◌≤◌, ◌∷◌, ◌++◌, [], None, Some, length, IfOk, IfSome};
ghost use Rattle.mip_outside.specs.Cause.{Rose};
ghost use Rattle.mip_outside.specs.LinkCalls.{called};

use crate::faults::Faults;
use mip_ghost_log::GhostLog;
use mip_outside::{Asked, Failed, Link, LinkCall, PutFault};
use std::io;
use std::io::ErrorKind;
use std::marker::Model;
use std::net::{Ipv4Addr, Net, SocketAddr, UdpSocket};
use std::time::Duration;

/// A UDP socket of this host, bound to 127.0.0.1. It has none before the first `listen_on` that is granted, and can then neither send
/// nor receive.
#[derive(Drop)]
pub struct UdpLink<N: Net + Drop> {
    net: N,
    socket: Option<UdpSocket>,
    faults: Faults,
    calls: GhostLog<LinkCall>,
}

impl<N: Net + Drop> Model for UdpLink<N> {
    ghost use Rattle.mip_frames.specs.Failing.{Untold};

    ghost Value = { Untold };

    ghost view = { λ l. record { faults = l.faults.0; calls = l.calls.items } };
}

impl<N: Net + Drop> UdpLink<N> {
    pub fn new(net: N) -> UdpLink<N>
        ensures { result ≡ record { faults = 0; calls = [] } }
    {
        UdpLink {
            net,
            socket: None,
            faults: Faults(0),
            calls: GhostLog::new(),
        }
    }

    /// Tells a call and its answer.
    fn tell(&mut self, asked: Asked, fault: Option<PutFault>)
        ensures { self.new ≡ record self.old { calls = self.old.calls ++ called asked fault ∷ [] } }
    {
        self.calls = self.calls.with(&LinkCall { asked, fault });
    }

    /// Tells a call that failed, and counts it.
    fn fail(&mut self, asked: Asked) -> Failed
        ensures calls { self.new.calls ≡ self.old.calls ++ called asked (Some PutFault.Failed) ∷ [] }
        ensures rose { Rose self.old.faults self.new.faults }
        ensures no_fewer { self.old.faults ≤ self.new.faults }
    {
        self.tell(asked, Some(PutFault::Failed));
        self.faults.raise()
    }
}

impl<N: Net + Drop> Link for UdpLink<N> {
    ghost sent = { λ _. None };

    ghost coming = { λ _. None };

    ghost port = { λ _. None };

    ghost calls = { λ link. link.calls };

    ghost faults = { λ link. link.faults };

    fn listen_on(&mut self, to: u16) -> Result<(), Failed> {
        match UdpSocket::bind(&self.net, here(to)) {
            Ok(socket) => {
                self.socket = Some(socket);
                self.tell(Asked::Listen, None);
                Ok(())
            }
            Err(_) => Err(self.fail(Asked::Listen)),
        }
    }

    fn send(&mut self, to: u16, datagram: &[u8]) -> Result<(), PutFault> {
        if is_sent(&self.socket, to, datagram) {
            self.tell(Asked::Send, None);
            return Ok(());
        }
        self.fail(Asked::Send);
        Err(PutFault::Failed)
    }

    fn receive(&mut self, into: &mut [u8], wait_ms: u64) -> Result<Option<usize>, Failed> {
        match received(&self.socket, into, wait_ms) {
            Ok(answer) => {
                self.tell(Asked::Receive, None);
                Ok(answer)
            }
            Err(_) => Err(self.fail(Asked::Receive)),
        }
    }
}

fn here(port: u16) -> SocketAddr {
    SocketAddr::from((Ipv4Addr::LOCALHOST, port))
}

/// Sends a datagram, and says whether all of it went.
fn is_sent(socket: &Option<UdpSocket>, to: u16, datagram: &[u8]) -> bool {
    match socket {
        Some(socket) =>
            matches!(socket.send_to(datagram, here(to)), Ok(count) if count == datagram.len()),
        None => false,
    }
}

/// Waits for a datagram. A wait of 0 is one of 1, since the system takes no 0.
fn received(socket: &Option<UdpSocket>, into: &mut [u8], wait_ms: u64) -> io::Result<Option<usize>>
    ensures { IfOk result (λ answer. IfSome answer (λ n. n ≤ length into.new)) }
{
    let Some(socket) = socket else {
        return Err(io::Error::from(ErrorKind::NotConnected));
    };
    socket.set_read_timeout(Some(Duration::from_millis(wait_ms.max(1))))?;
    match socket.recv_from(into) {
        Ok((count, _)) => Ok(Some(count)),
        Err(error) if is_gap(error.kind()) => Ok(None),
        Err(error) => Err(error),
    }
}

/// Whether nothing came: the wait is over, or a signal such as that of a stopped and continued program ended it.
fn is_gap(kind: ErrorKind) -> bool {
    matches!(
        kind,
        ErrorKind::WouldBlock | ErrorKind::TimedOut | ErrorKind::Interrupted
    )
}
