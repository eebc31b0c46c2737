//! The numbers by which peers, accounts, calls, conferences and subscriptions are named, and the failure of the environment.

/// The number of a peer in the configuration.
#[derive(Clone, Copy, Debug, PartialEq, Eq, PartialOrd, Ord)]
pub struct Peer(pub u16);

/// The number of an account in the configuration.
#[derive(Clone, Copy, Debug, PartialEq, Eq, PartialOrd, Ord)]
pub struct Account(pub u32);

/// The number of a call: calls are numbered from 1 in the order in which they open.
#[derive(Clone, Copy, Debug, PartialEq, Eq, PartialOrd, Ord)]
pub struct CallNo(pub u64);

/// The number of a conference: conferences are numbered from 1 in the order in which they open.
#[derive(Clone, Copy, Debug, PartialEq, Eq, PartialOrd, Ord)]
pub struct RoomNo(pub u64);

/// The number of a subscription to the event `message-summary` of a mailbox: subscriptions are numbered from 1 in the order in which they are made (TS 24.606, RFC 3842).
#[derive(Clone, Copy, Debug, PartialEq, Eq, PartialOrd, Ord)]
pub struct SubNo(pub u64);

/// The fault that a file, a link, a keeper, a sink or another part of the environment returns where it could not do what was requested.
#[derive(Clone, Copy, Debug, PartialEq, Eq)]
pub struct Failed;
