//! A UDP socket and a TCP listener that never block, and a wait on both.
ghost use Rattle.std.specs.Prelude.{◌≤◌, length, IfOk, IfSome};

use libc::net::{POLLIN, SO_RCVBUF, SOL_SOCKET, poll, setsockopt};
use libc::types::pollfd;
use mmtel_types::{Addr, Moment};
use std::io;
use std::io::ErrorKind;
use std::net::{Ipv4Addr, SocketAddr, TcpListener, TcpStream, UdpSocket};
use std::os::fd::AsRawFd;
use std::time::SystemTime;

/// The size in bytes of the receive buffer for datagrams, where the system allows so much.
const WAITING: u32 = 4_194_304;

/// A descriptor that `poll` ignores.
const NOTHING: i32 = -1;

/// The two sockets.
#[derive(Drop)]
pub struct Sockets {
    socket: UdpSocket,
    listener: TcpListener,
}

/// An address in the form of the system.
fn socket_addr(addr: Addr) -> SocketAddr {
    SocketAddr::from((Ipv4Addr::from_octets(addr.ip), addr.port))
}

/// The machine's clock.
pub fn clock(rt: &HostRuntime) -> io::Result<Moment> {
    let now = SystemTime::now(rt)?;
    let Ok(since) = now.duration_since(SystemTime::UNIX_EPOCH) else {
        return Err(io::Error::from(ErrorKind::InvalidData));
    };
    let Ok(ms) = u64::try_from(since.as_millis()) else {
        return Err(io::Error::from(ErrorKind::InvalidData));
    };
    match Moment::new(ms) {
        Some(moment) => Ok(moment),
        None => Err(io::Error::from(ErrorKind::InvalidData)),
    }
}

/// Requests a receive buffer for this many bytes of datagrams. The system may grant less, and that is no fault.
fn set_buffer_size(socket: &UdpSocket, bytes: u32) {
    let mut value = [0u8; 16];
    value[..4].copy_from_slice(&bytes.to_le_bytes());
    // SAFETY: the option is one whose value holds no pointer, and the value has 4 bytes.
    let _status = unsafe { setsockopt(socket.as_raw_fd(), SOL_SOCKET, SO_RCVBUF, &value, 4) };
}

impl Sockets {
    /// Binds both.
    pub fn bind(rt: &HostRuntime, sip: Addr, web: Addr) -> io::Result<Sockets> {
        let socket = UdpSocket::bind(rt, socket_addr(sip))?;
        let listener = TcpListener::bind(rt, socket_addr(web))?;
        set_buffer_size(&socket, WAITING);
        socket.set_nonblocking(true)?;
        listener.set_nonblocking(true)?;
        Ok(Sockets { socket, listener })
    }

    /// A datagram, where one has arrived. An error since a peer refused one is no fault.
    pub fn datagram(&self, buf: &mut [u8]) -> io::Result<Option<(usize, SocketAddr)>>
        ensures { IfOk result (λ came. IfSome came (λ x. x.0 ≤ length buf.new)) }
    {
        match self.socket.recv_from(buf) {
            Ok((count, from)) => Ok(Some((count, from))),
            Err(e) if e.kind() == ErrorKind::WouldBlock => Ok(None),
            Err(e) if e.kind() == ErrorKind::ConnectionRefused => Ok(None),
            Err(e) => Err(e),
        }
    }

    /// The stream of a web connection, where one has arrived. An error is one of that connection, or a transient lack of system resources (accept(2)).
    pub fn stream(&self) -> io::Result<Option<TcpStream>> {
        match self.listener.accept() {
            Ok((stream, _)) => {
                stream.set_nonblocking(true)?;
                Ok(Some(stream))
            }
            Err(e) if e.kind() == ErrorKind::WouldBlock => Ok(None),
            Err(e) => Err(e),
        }
    }

    /// Waits until a datagram has arrived or, where that is requested, a web connection, for at most so many milliseconds; returns whether the latter may have arrived.
    pub fn wait(&self, listens: bool, ms: i32) -> bool {
        let listener = if listens {
            self.listener.as_raw_fd()
        } else {
            NOTHING
        };
        let mut asked = [
            pollfd {
                fd: self.socket.as_raw_fd(),
                events: POLLIN,
                revents: 0,
            },
            pollfd {
                fd: listener,
                events: POLLIN,
                revents: 0,
            },
        ];
        let _ready = poll(&mut asked, ms);
        asked[1].revents != 0
    }

    /// Sends a datagram.
    pub fn send(&self, to: Addr, bytes: &[u8]) -> io::Result<()> {
        let _count = self.socket.send_to(bytes, socket_addr(to))?;
        Ok(())
    }
}
