//! Which request a response answers, among those whose response is waited for.
ghost use Rattle.std.specs.Prelude.{◌≡◌, IfOk};
ghost use Rattle.std.specs.Option.{option_copied};
ghost use Rattle.mmtel_output.specs.ResponseMatching.{awaited_request_branch, behind, behind_cookie, branch_in, first_branch_in};
ghost use Rattle.mmtel_output.specs.ResponseMatching.{is_awaited_method, is_awaited_response, timed_out_branch};

use mmtel_base::{NoMemory, Text, skip_text};
use mmtel_compose::ReceivedMessage;
use std::alloc::Global;

/// What follows the cookie of a branch (RFC 3261 §8.1.1.7); None where it does not begin with it.
pub fn behind_cookie(branch: &[u8]) -> Option<&[u8]>
    ensures behind { option_copied result ≡ behind_cookie branch.now }
{
    skip_text(b"z9hG4bK", branch)
}

/// The branch after its cookie, where there is one.
fn behind(branch: Option<&[u8]>) -> Option<&[u8]>
    ensures { option_copied result ≡ behind (option_copied branch.entry) }
{
    match branch {
        None => None,
        Some(branch) => behind_cookie(branch),
    }
}

/// The branch of the first Via of a message, where it parses.
fn first_branch(response: &ReceivedMessage) -> Option<&[u8]>
    ensures { option_copied result ≡ first_branch_in response.now.parsed.vias }
{
    response.message.first_branch()
}

/// The branch, after its cookie, of the first Via of a response: that of the request to which it responds (RFC 3261 §17.1.3).
pub fn branch_of(response: &ReceivedMessage) -> Option<&[u8]>
    ensures branch { option_copied result ≡ branch_in response.now.parsed.vias }
{
    behind(first_branch(response))
}

/// Whether the response to a request of the method is waited for: to an INVITE (RFC 3261 §13), and to a PRACK (RFC 3262 §4) or an UPDATE (RFC 3311 §5.1) that a call relays.
fn is_awaited_method(method: &[u8]) -> bool
    ensures { result ≡ is_awaited_method method.now }
{
    method == b"INVITE".as_slice()
        || method == b"PRACK".as_slice()
        || method == b"UPDATE".as_slice()
}

/// Whether a response answers a request whose response is waited for.
fn is_awaited_response(response: &ReceivedMessage) -> bool
    ensures { result ≡ is_awaited_response response.now.parsed.cseq }
{
    match response.message.first_method() {
        None => false,
        Some(method) => is_awaited_method(method),
    }
}

/// These bytes, where there are any.
fn copied(alloc: Global, bytes: Option<&[u8]>) -> Result<Option<Text>, NoMemory>
    ensures { IfOk result (λ text. text ≡ option_copied bytes.entry) }
{
    match bytes {
        None => Ok(None),
        Some(bytes) => Ok(Some(Text::of(alloc, bytes)?)),
    }
}

/// The branch, after its cookie, of the INVITE, PRACK or UPDATE that a response answers (RFC 3261 §17.1.3); None where it answers another request.
///
/// # Errors
///
/// Out of memory only.
#[tactic(auto, unfolding(crate::specs::ResponseMatching::awaited_request_branch))]
pub fn awaited_request_branch(
    alloc: Global,
    response: &ReceivedMessage,
) -> Result<Option<Text>, NoMemory>
    ensures { IfOk result (λ branch. branch ≡ awaited_request_branch response.now) }
{
    if is_awaited_response(response) {
        return copied(alloc, branch_of(response));
    }
    Ok(None)
}

/// The same for the request that timed out, with this branch and this method.
pub fn timed_out_branch<'a>(branch: &'a [u8], method: &[u8]) -> Option<&'a [u8]>
    ensures { option_copied result ≡ timed_out_branch branch.now method.now }
{
    if is_awaited_method(method) {
        return behind_cookie(branch);
    }
    None
}
