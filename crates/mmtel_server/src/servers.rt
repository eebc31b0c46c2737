//! The server.

mod calls;
mod conferences;
mod messages;
mod newcomers;
mod operations;
mod replacing;
mod rows;
mod steps;
mod subscriptions;
mod timers;
mod web_requests;

use mmtel_b2bua::Calls;
use mmtel_base::List;
use mmtel_charging::Row;
use mmtel_directory::Directory;
use mmtel_focus::Rooms;
use mmtel_mwi::Boxes;
use mmtel_records_in_force::Records;
use mmtel_server_timers::Timers;
use mmtel_transaction::{Tokens, Transactions};
use mmtel_types::Moment;
use std::alloc::Global;

/// What each operation of a step reads beside the server.
#[derive(Clone, Copy)]
struct Context {
    /// The allocator.
    alloc: Global,
    /// The moment of the operation.
    at: Moment,
}

/// A server, whose fields represent the state of its run. It is linear: `Server::give_up` releases it.
pub struct Server {
    /// Its configuration.
    directory: Directory,
    /// The numbers of identifiers that were drawn.
    tokens: Tokens,
    /// The transactions.
    transactions: Transactions,
    /// The calls.
    calls: Calls,
    /// The conferences.
    rooms: Rooms,
    /// The counts of the mailboxes, and the subscriptions to them.
    boxes: Boxes,
    /// The timers of calls, of participants and of subscriptions that did not fire.
    pending_timers: Timers,
    /// The CDRs that wait for the keeper, in the order in which they were closed: each is removed from the calls or the conferences as soon as they have closed it.
    waiting: List<Row>,
    /// The records in force, and the registrations.
    records: Records,
    /// The greatest moment so far.
    clock: Moment,
    /// How many events came and timers fired.
    steps: u64,
    /// Memory ran out in a step: nothing is done from then on.
    failed: bool,
}
