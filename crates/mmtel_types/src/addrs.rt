//! Addresses over UDP.
ghost use Rattle.std.specs.Prelude.{◌≡◌};
ghost use Rattle.mmtel_types.specs.Addrs.{is_same_addr};

/// An address over UDP: IPv4 and a port.
#[derive(Clone, Copy, Debug)]
pub struct Addr {
    /// The four numbers of the IPv4 address, in the order in which they are written.
    pub ip: [u8; 4],
    /// The UDP port.
    pub port: u16,
}

impl Addr {
    /// Whether the addresses are equal.
    pub fn is_same(self, other: Addr) -> bool
        ensures test { result ≡ is_same_addr self other }
    {
        self.ip == other.ip && self.port == other.port
    }
}
