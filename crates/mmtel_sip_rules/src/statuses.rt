//! The classes of statuses (RFC 3261 §7.2).
ghost use Rattle.std.specs.Prelude.{◌≡◌};
ghost use Rattle.mmtel_sip_rules.specs.Statuses.{is_provisional, is_redirection, is_refusal, is_success};

/// Whether it is the status of a provisional response: below 200.
pub fn is_provisional(status: u16) -> bool
    ensures exact { result ≡ is_provisional status }
{
    status < 200
}

/// Whether it is a 2xx.
pub fn is_success(status: u16) -> bool
    ensures exact { result ≡ is_success status }
{
    200 <= status && status < 300
}

/// Whether it is a 3xx.
pub fn is_redirection(status: u16) -> bool
    ensures exact { result ≡ is_redirection status }
{
    300 <= status && status < 400
}

/// Whether it is the status of a final response that is no 2xx: 300 or above.
pub fn is_refusal(status: u16) -> bool
    ensures exact { result ≡ is_refusal status }
{
    status >= 300
}
