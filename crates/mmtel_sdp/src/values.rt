//! What is read of a session description.

use mmtel_base::{List, Text};

/// In which direction media flow, from the point of view of the side that wrote the description (RFC 3264 §5.1).
#[derive(Clone, Copy, Debug, PartialEq, Eq)]
pub enum Direction {
    SendRecv,
    SendOnly,
    RecvOnly,
    Inactive,
}

/// A medium: what its `m=` line says, and the rtpmap of its first format (RFC 4566 §5.14 and §6).
#[derive(Drop)]
pub struct Medium {
    /// The kind, as `audio`.
    pub kind: Text,
    /// The transport protocol, as `RTP/AVP`.
    pub proto: Text,
    /// The first format.
    pub format: Text,
    /// The value of the first `a=rtpmap:` line of that format, the format included; empty where there is none.
    pub map: Text,
}

/// What calls and conferences read of a session description.
#[derive(Drop)]
pub struct SdpView {
    /// The media, in order.
    pub media: List<Medium>,
    /// The direction of the first audio medium.
    pub direction: Direction,
}

/// The address at which the mixer of a conference receives media.
#[derive(Clone, Copy)]
pub struct Mixer {
    /// The four parts of the IPv4 address.
    pub ip: [u8; 4],
    /// The UDP port.
    pub port: u16,
}
