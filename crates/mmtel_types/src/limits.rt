//! The limits of the server.

/// The last moment of the clock, in milliseconds since 1970-01-01T00:00:00Z: in the year 9892.
pub const LAST_MOMENT: u64 = 250_000_000_000_000;

/// The bytes of a datagram, at most.
pub const DATAGRAM_BYTES: usize = 16_384;

/// The header lines of a datagram, at most.
pub const HEADER_LINES: usize = 128;

/// The History-Info values that a message is received with, at most.
pub const HISTORY_VALUES: usize = 32;

/// The server transactions that are live at once, at most.
pub const SERVER_TRANSACTIONS: usize = 16_384;

/// The calls that are live at once, at most.
pub const CALLS: usize = 4_096;

/// The conferences that are live at once, at most.
pub const CONFERENCES: usize = 1_024;

/// The participants of a conference, at most.
pub const PARTICIPANTS: usize = 32;

/// The rules of one service in a service record, at most.
pub const RULES: usize = 64;

/// The identities that one rule names, at most.
pub const RULE_IDENTITIES: usize = 64;

/// The bytes of the target of a diversion in a service record, at most.
pub const TARGET_BYTES: usize = 256;

/// The bytes of a service record, at most.
pub const SHEET_BYTES: usize = 65_536;

/// The bytes of the head of an HTTP request, at most.
pub const WEB_HEAD_BYTES: usize = 8_192;

/// The bytes of the body of an HTTP request, at most.
pub const WEB_BODY_BYTES: usize = 65_536;

/// The bound on the diversions of a call, where the configuration sets none.
pub const DIVERSIONS_DEFAULT: u16 = 5;

/// The bound on the diversions of a call, at most.
pub const MAX_DIVERSIONS: u16 = 16;

/// The seconds of ringing after which a call counts as not answered, where the service record sets none.
pub const NO_REPLY_SECONDS_DEFAULT: u16 = 20;

/// The seconds of ringing after which a call counts as not answered, at least.
pub const MIN_NO_REPLY_SECONDS: u16 = 5;

/// The seconds of ringing after which a call counts as not answered, at most.
pub const MAX_NO_REPLY_SECONDS: u16 = 180;

/// The peers of a configuration, at most.
pub const PEERS: usize = 1_024;

/// The routes of a configuration, at most.
pub const ROUTES: usize = 4_096;

/// The accounts of a configuration, at most.
pub const ACCOUNTS: usize = 10_000;

/// The identities of an account, at most.
pub const ACCOUNT_IDENTITIES: usize = 8;
