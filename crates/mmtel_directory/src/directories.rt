//! Configurations.
ghost use Rattle.std.specs.Prelude.{◌≡◌, ◌≤◌, IfOk};
ghost use Rattle.mmtel_directory.specs.Directory.{ReadsDirectory, directory_of};
ghost use Rattle.mmtel_directory.specs.Drafts.{Reads};
ghost use Rattle.mmtel_directory.specs.Lines.{lines_of};
ghost use Rattle.mmtel_directory.specs.declared.directories.DirectoryFault.TheVariants as fault;

use crate::drafts::Draft;
use crate::lines::next_line;
use mmtel_base::{NoMemory, Text};
use mmtel_lex::Uri;
use mmtel_message::OwnAddress;
use mmtel_sdp::Mixer;
use mmtel_trust::{Accounts, PeerTable};
use mmtel_types::Addr;
use std::alloc::Global;

/// Who may access what by HTTP.
#[derive(Drop)]
pub struct WebDirectory {
    /// The accounts: each may access its own record. Calls are decided by the same table.
    pub accounts: Accounts,
    /// The operator, who may read the charging rows; where there is none, nobody may.
    pub operator: Option<Uri>,
    /// Whether the server notifies of waiting messages (TS 24.606, RFC 3842).
    pub mwi: bool,
}

/// The configuration of the server and of its peers.
#[derive(Drop)]
pub struct Directory {
    /// The server's own address for SIP.
    pub sip: OwnAddress,
    /// The server's own address for HTTP.
    pub web: Addr,
    /// The home domain.
    pub home: Text,
    /// The peers, and the routes to them.
    pub peers: PeerTable,
    /// The accounts and the operator.
    pub names: WebDirectory,
    /// The factory URI, at which conferences are created; where there is none, no conference is created.
    pub factory: Option<Uri>,
    /// The bound on the diversions of a call: 0 to 16.
    pub bound: u16,
    /// The digits of the home country: a number with other digits after its `+` is abroad. Where there are none, no number is.
    pub country: Option<Text>,
    /// Whether provisional responses are relayed reliably, and UPDATE is supported (RFC 3262, RFC 3311).
    pub reliable: bool,
    /// Whether sessions have timers (RFC 4028).
    pub timer: bool,
    /// The address at which the conference mixer receives media.
    pub mixer: Mixer,
    /// The name of the store, to which the keeper is bound.
    pub store: Text,
}

/// Why a text is no configuration.
#[derive(Clone, Copy, Debug, PartialEq, Eq)]
pub enum DirectoryFault {
    /// The first line that breaks the grammar, or the one past the last where a required line is absent.
    BadLine {
        /// Its number, from 1.
        line: u64,
    },
    /// Memory ran out.
    NoMemory,
}

impl From<NoMemory> for DirectoryFault {
    ghost from_gives = { λ _ e. e ≡ fault.NoMemory };

    fn from(_error: NoMemory) -> DirectoryFault {
        DirectoryFault::NoMemory
    }
}

/// Adds the content of each line of a text to the draft; the number after that of the last line.
fn read_lines(alloc: Global, draft: &mut Draft, bytes: &[u8]) -> Result<u64, DirectoryFault>
    ensures { Reads result draft.old (lines_of bytes.now) draft.new }
{
    let mut number: u64 = 1;
    let mut rest = bytes;
    'lines: while let Some((line, more)) = next_line(rest) {
        draft.read(alloc, number, line)?;
        number += 1;
        rest = more;
    }
    Ok(number)
}

/// Reads a configuration.
///
/// Each line ends with LF, which the last may lack; one that is empty or begins with `#` is ignored. One space separates the words of a line, and numbers are decimal without
/// leading zeros. `ADDR` is `a.b.c.d:port`, the port of 1 to 65535.
///
/// - `sip ADDR` and `home HOST` are required.
/// - `web ADDR`; without it 127.0.0.1:8080.
/// - `peer N ADDR trusted` or `peer N ADDR untrusted`, `N` of 1 to 1,024; numbers and addresses differ.
/// - `route NAME N`, up to 4,096 of them: the name is a host, `+` and digits, or `*`, names differ without case, and the peer is named above.
/// - `account N URI ..`, 1 to 8 URIs, up to 10,000 such lines: `N` of 1 to 4,294,967,295, numbers differ, and so do the identities of all accounts.
/// - `operator URI`; without it nobody may read the charging rows.
/// - `factory URI`; without it no conference is created.
/// - `bound N`, 0 to 16; without it 5.
/// - `country DIGITS`, one to three; without it no number is abroad.
/// - `extension WORD`, of `100rel` (reliable provisional responses and UPDATE, RFC 3262 and RFC 3311), `timer` (session timers, RFC 4028) and
///   `mwi` (message waiting, 3GPP TS 24.606); without it that extension is off.
/// - `mixer IP PORT`; without it 127.0.0.1 and 40000.
/// - `store NAME`, a name of any bytes but spaces; without it `:memory:`.
///
/// Each line but peers, routes, accounts and extensions may occur once only, and so may each extension.
///
/// # Errors
///
/// `BadLine` exactly with the first line that breaks this, or with one past the last where `sip` or `home` is absent; else out of memory only.
pub fn read_directory(alloc: Global, bytes: &[u8]) -> Result<Directory, DirectoryFault>
    ensures exact { ReadsDirectory result (directory_of bytes.now) }
    ensures bounded { IfOk result (λ directory. directory.bound ≤ 16) }
{
    let mut draft = Draft::new();
    match read_lines(alloc, &mut draft, bytes) {
        Ok(last) => draft.finish(alloc, last),
        Err(fault) => Err(fault),
    }
}
