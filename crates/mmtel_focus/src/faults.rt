//! Why a leg cannot enter a conference.

/// Why a leg cannot enter a conference.
#[derive(Clone, Copy, Debug, PartialEq, Eq)]
pub enum RoomFault {
    /// The maximum number of conferences is live.
    NoRoom,
    /// The conference has its maximum number of participants.
    RoomFull,
    /// The conference is not live.
    Gone,
    /// Memory ran out.
    NoMemory,
}
