//! The words of a Privacy header field.

/// Which words the Privacy header field of a message has (RFC 3323 §4.2, `id` of RFC 3325 §9.3, `history` of RFC 7044 §10.1).
#[derive(Clone, Copy, Debug, PartialEq, Eq, Default)]
pub struct PrivacySet {
    /// `header`: what identifies the user in other header fields is to be hidden.
    pub header: bool,
    /// `session`: what the session description discloses is to be hidden.
    pub session: bool,
    /// `user`: what the user agent itself would hide is to be hidden.
    pub user: bool,
    /// `none`: nothing is to be hidden.
    pub none: bool,
    /// `critical`: the call is to fail where the requested privacy cannot be provided.
    pub critical: bool,
    /// `id`: the asserted identity is not to be passed to an untrusted element.
    pub id: bool,
    /// `history`: the entries of History-Info are to be hidden.
    pub history: bool,
}
