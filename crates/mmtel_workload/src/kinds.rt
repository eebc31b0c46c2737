//! Which calls are made, and the actions in each of them.
ghost use Rattle.std.specs.Prelude.{◌≡◌, ◌≤◌};
ghost use Rattle.mmtel_workload.specs.Kinds.{drawn_in, kind_by, messages_of, next_value};

/// The kind of a call.
#[derive(Clone, Copy, Debug, PartialEq, Eq)]
pub enum Kind {
    /// Bob answers, and alice hangs up.
    Answered,
    /// Carol diverts the call to the voice mail of the other network, which answers; alice hangs up.
    Diverted,
    /// Bob is busy.
    Busy,
    /// Alice abandons the call while bob's phone rings.
    Cancelled,
}

/// An action of a party.
#[derive(Clone, Copy, Debug, PartialEq, Eq)]
pub enum CallMessage {
    /// Alice's INVITE.
    Invite,
    /// 180 of the party that she reaches.
    Ringing,
    /// 200 to the INVITE.
    OkToInvite,
    /// Her ACK of the 200.
    AckOfOk,
    /// Her BYE.
    Bye,
    /// 200 to the BYE.
    OkToBye,
    /// 486 to the INVITE.
    BusyHere,
    /// Her ACK of a refusal.
    AckOfRefusal,
    /// Her CANCEL.
    Cancel,
    /// 200 to the CANCEL.
    OkToCancel,
    /// 487 to the INVITE.
    RequestTerminated,
}

/// A call that is answered.
const ANSWERED: &[(u16, CallMessage)] = &[
    (0, CallMessage::Invite),
    (100, CallMessage::Ringing),
    (200, CallMessage::OkToInvite),
    (300, CallMessage::AckOfOk),
    (400, CallMessage::Bye),
    (500, CallMessage::OkToBye),
];

/// A call to one who is busy.
const BUSY: &[(u16, CallMessage)] = &[
    (0, CallMessage::Invite),
    (100, CallMessage::BusyHere),
    (200, CallMessage::AckOfRefusal),
];

/// A call that is abandoned.
const CANCELLED: &[(u16, CallMessage)] = &[
    (0, CallMessage::Invite),
    (100, CallMessage::Ringing),
    (200, CallMessage::Cancel),
    (300, CallMessage::OkToCancel),
    (300, CallMessage::RequestTerminated),
    (300, CallMessage::AckOfRefusal),
];

impl Kind {
    /// The kind of a call by its number of the rule.
    pub fn of(value: u32) -> Kind
        ensures kind { result ≡ kind_by value }
    {
        match (value / 65_536) % 4 {
            0 => Kind::Answered,
            1 => Kind::Diverted,
            2 => Kind::Busy,
            _ => Kind::Cancelled,
        }
    }

    /// The actions in such a call, each so many milliseconds after its beginning.
    pub fn messages(self) -> &'static [(u16, CallMessage)]
        ensures acts { result.now ≡ messages_of self }
    {
        match self {
            Kind::Answered | Kind::Diverted => ANSWERED,
            Kind::Busy => BUSY,
            Kind::Cancelled => CANCELLED,
        }
    }

    /// How many numbers for identifiers the server draws in such a call: for its own tag, and the Call-ID, tag and branch of the INVITE; and for the branches of an ACK and a BYE.
    pub fn drawn(self) -> u64
        ensures drawn { result ≡ drawn_in self }
        ensures few { result ≤ 6 }
    {
        match self {
            Kind::Answered | Kind::Diverted => 6,
            Kind::Busy | Kind::Cancelled => 4,
        }
    }
}

/// The number of the rule for the next call: 1,103,515,245 times the one before it and 12,345, by 2^31.
pub fn next_value(value: u32) -> u32
    ensures next { result ≡ next_value value }
{
    let product = 1_103_515_245 * u64::from(value) + 12_345;
    (product % 2_147_483_648) as u32
}
