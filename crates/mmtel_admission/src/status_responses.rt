//! The dispositions of a request that opens a transaction, and the server's own responses to it.
ghost use Rattle.std.specs.Prelude.{◌≡◌, IfOk};
ghost use Rattle.mmtel_run_definitions.specs.OwnResponses.{further_methods, interval_too_small, plain_response, response_with_allow};
ghost use Rattle.mmtel_admission.specs.Dispositions.{response_in};

use mmtel_base::{List, NoMemory};
use mmtel_compose::{FurtherMethods, allow_lines};
use mmtel_directory::Directory;
use mmtel_message::{Line, add_bytes};
use mmtel_types::{Account, CallNo, RoomNo, Side, SubNo};
use std::alloc::Global;

/// A response of the server's own: its status, and the header fields that it has of its own.
#[derive(Drop)]
pub struct StatusResponse {
    /// The status.
    pub code: u16,
    /// The header fields that are particular to it: Allow (RFC 3261 §20.5), Unsupported (§20.40), Min-SE (RFC 4028 §5), Allow-Events or Expires (RFC 6665 §8.2.2, §4.2.1.1).
    pub lines: List<Line>,
}

/// The owner of a dialog (RFC 3261 §12).
#[derive(Clone, Copy)]
pub enum DialogOwner {
    /// A side of a call.
    InCall {
        /// The call.
        call: CallNo,
        /// The side.
        side: Side,
    },
    /// A participant of a conference.
    InConference {
        /// The conference.
        room: RoomNo,
        /// The number of the participant.
        seat: u64,
    },
    /// A subscription to a mailbox.
    InSubscription(SubNo),
}

/// What is done with a request that opens a transaction.
#[derive(Drop)]
pub enum Disposition {
    /// It gets this response.
    Respond(StatusResponse),
    /// It is received in the dialog of this side of a call.
    Enter {
        /// The call.
        call: CallNo,
        /// The side.
        side: Side,
    },
    /// It is received in the dialog of this participant of a conference.
    EnterConference {
        /// The conference.
        room: RoomNo,
        /// The number of the participant.
        seat: u64,
    },
    /// It opens a call.
    OpenCall,
    /// It opens a conference (RFC 4579 §5.4): it offers audio.
    OpenConference,
    /// It asks to join this conference (RFC 4579 §5.1): it offers audio.
    JoinConference {
        /// The conference, whether it is live or not.
        room: RoomNo,
    },
    /// It registers an account for so many seconds.
    Register {
        /// The account.
        account: Account,
        /// The seconds from now.
        seconds: u64,
    },
    /// It subscribes to a mailbox (RFC 6665 §4.2.1).
    Subscribe,
    /// It is received in the dialog of this subscription.
    EnterSubscription(SubNo),
}

/// A response that has no header fields of its own.
pub fn plain_response(code: u16) -> StatusResponse
    ensures response { response_in result ≡ plain_response code }
{
    StatusResponse {
        code,
        lines: List::new(),
    }
}

/// The methods that a server of this configuration knows in addition to those that it always knows.
pub fn further_methods(directory: &Directory) -> FurtherMethods
    ensures methods { result ≡ further_methods directory.now }
{
    FurtherMethods {
        reliable: directory.reliable,
        mwi: directory.names.mwi,
    }
}

/// A response with the methods that the server knows, in Allow (RFC 3261 §20.5).
pub fn response_with_allow(
    alloc: Global,
    directory: &Directory,
    code: u16,
) -> Result<StatusResponse, NoMemory>
    ensures { IfOk result (λ answer. response_in answer ≡ response_with_allow directory.now code) }
{
    let lines = allow_lines(alloc, further_methods(directory))?;
    Ok(StatusResponse { code, lines })
}

/// The response 422 to a request that asks for too short a session, with the minimum interval in Min-SE (RFC 4028 §6).
#[tactic(auto, unfolding(mmtel_message::specs::Message::line))]
pub fn interval_too_small(alloc: Global) -> Result<StatusResponse, NoMemory>
    ensures { IfOk result (λ answer. response_in answer ≡ interval_too_small) }
{
    let mut lines = List::new();
    add_bytes(alloc, &mut lines, b"Min-SE", b"90")?;
    Ok(StatusResponse { code: 422, lines })
}

/// The response 420 to a request that requires what the server does not support, with a header field for each option (RFC 3261 §20.40).
pub fn bad_extension(lines: List<Line>) -> StatusResponse
    ensures { response_in result ≡ record { code = 420; lines = lines } }
{
    StatusResponse {
        code: 420,
        lines: lines,
    }
}
