//! Header names: how this server spells each that it knows, and which have compact forms (RFC 3261 §7.3.3 and §20).
ghost use Rattle.std.specs.Prelude.{◌≡◌, ◌||◌};
ghost use Rattle.std.specs.Str.{str_eq_ignore_ascii_case};
ghost use Rattle.std.specs.Option.{option_copied};
ghost use Rattle.mmtel_message.specs.Names.{of_forms, of_names, compact_forms, more_compact_forms, routing_names, content_names, caller_names, network_names, or_else, long_name};

fn is_either(name: &[u8], long: &[u8], compact: &[u8]) -> bool
    ensures { result ≡ (str_eq_ignore_ascii_case name.now long.now || str_eq_ignore_ascii_case name.now compact.now) }
{
    name.eq_ignore_ascii_case(long) || name.eq_ignore_ascii_case(compact)
}

fn of_compact_forms(name: &[u8]) -> Option<&'static [u8]>
    ensures { option_copied result ≡ of_forms compact_forms name.now }
{
    if is_either(name, b"Via", b"v") {
        return Some(b"Via");
    }
    if is_either(name, b"From", b"f") {
        return Some(b"From");
    }
    if is_either(name, b"To", b"t") {
        return Some(b"To");
    }
    if is_either(name, b"Call-ID", b"i") {
        return Some(b"Call-ID");
    }
    if is_either(name, b"Contact", b"m") {
        return Some(b"Contact");
    }
    if is_either(name, b"Content-Length", b"l") {
        return Some(b"Content-Length");
    }
    if is_either(name, b"Content-Type", b"c") {
        return Some(b"Content-Type");
    }
    None
}

fn of_more_compact_forms(name: &[u8]) -> Option<&'static [u8]>
    ensures { option_copied result ≡ of_forms more_compact_forms name.now }
{
    if is_either(name, b"Supported", b"k") {
        return Some(b"Supported");
    }
    if is_either(name, b"Subject", b"s") {
        return Some(b"Subject");
    }
    if is_either(name, b"Content-Encoding", b"e") {
        return Some(b"Content-Encoding");
    }
    if is_either(name, b"Refer-To", b"r") {
        return Some(b"Refer-To");
    }
    if is_either(name, b"Referred-By", b"b") {
        return Some(b"Referred-By");
    }
    if is_either(name, b"Event", b"o") {
        return Some(b"Event");
    }
    if is_either(name, b"Session-Expires", b"x") {
        return Some(b"Session-Expires");
    }
    None
}

fn of_routing_names(name: &[u8]) -> Option<&'static [u8]>
    ensures { option_copied result ≡ of_names routing_names name.now }
{
    if name.eq_ignore_ascii_case(b"CSeq") {
        return Some(b"CSeq");
    }
    if name.eq_ignore_ascii_case(b"Max-Forwards") {
        return Some(b"Max-Forwards");
    }
    if name.eq_ignore_ascii_case(b"Route") {
        return Some(b"Route");
    }
    if name.eq_ignore_ascii_case(b"Record-Route") {
        return Some(b"Record-Route");
    }
    if name.eq_ignore_ascii_case(b"P-Asserted-Identity") {
        return Some(b"P-Asserted-Identity");
    }
    if name.eq_ignore_ascii_case(b"P-Served-User") {
        return Some(b"P-Served-User");
    }
    if name.eq_ignore_ascii_case(b"History-Info") {
        return Some(b"History-Info");
    }
    if name.eq_ignore_ascii_case(b"Privacy") {
        return Some(b"Privacy");
    }
    if name.eq_ignore_ascii_case(b"Require") {
        return Some(b"Require");
    }
    if name.eq_ignore_ascii_case(b"Allow") {
        return Some(b"Allow");
    }
    None
}

fn of_content_names(name: &[u8]) -> Option<&'static [u8]>
    ensures { option_copied result ≡ of_names content_names name.now }
{
    if name.eq_ignore_ascii_case(b"Accept") {
        return Some(b"Accept");
    }
    if name.eq_ignore_ascii_case(b"Accept-Contact") {
        return Some(b"Accept-Contact");
    }
    if name.eq_ignore_ascii_case(b"Accept-Encoding") {
        return Some(b"Accept-Encoding");
    }
    if name.eq_ignore_ascii_case(b"Accept-Language") {
        return Some(b"Accept-Language");
    }
    if name.eq_ignore_ascii_case(b"Alert-Info") {
        return Some(b"Alert-Info");
    }
    if name.eq_ignore_ascii_case(b"Content-Disposition") {
        return Some(b"Content-Disposition");
    }
    if name.eq_ignore_ascii_case(b"Content-Language") {
        return Some(b"Content-Language");
    }
    if name.eq_ignore_ascii_case(b"MIME-Version") {
        return Some(b"MIME-Version");
    }
    if name.eq_ignore_ascii_case(b"Priority") {
        return Some(b"Priority");
    }
    if name.eq_ignore_ascii_case(b"Reason") {
        return Some(b"Reason");
    }
    None
}

fn of_caller_names(name: &[u8]) -> Option<&'static [u8]>
    ensures { option_copied result ≡ of_names caller_names name.now }
{
    if name.eq_ignore_ascii_case(b"Reject-Contact") {
        return Some(b"Reject-Contact");
    }
    if name.eq_ignore_ascii_case(b"Request-Disposition") {
        return Some(b"Request-Disposition");
    }
    if name.eq_ignore_ascii_case(b"Retry-After") {
        return Some(b"Retry-After");
    }
    if name.eq_ignore_ascii_case(b"Unsupported") {
        return Some(b"Unsupported");
    }
    if name.eq_ignore_ascii_case(b"Call-Info") {
        return Some(b"Call-Info");
    }
    if name.eq_ignore_ascii_case(b"Organization") {
        return Some(b"Organization");
    }
    if name.eq_ignore_ascii_case(b"User-Agent") {
        return Some(b"User-Agent");
    }
    if name.eq_ignore_ascii_case(b"Server") {
        return Some(b"Server");
    }
    if name.eq_ignore_ascii_case(b"Reply-To") {
        return Some(b"Reply-To");
    }
    if name.eq_ignore_ascii_case(b"In-Reply-To") {
        return Some(b"In-Reply-To");
    }
    None
}

fn of_network_names(name: &[u8]) -> Option<&'static [u8]>
    ensures { option_copied result ≡ of_names network_names name.now }
{
    if name.eq_ignore_ascii_case(b"P-Access-Network-Info") {
        return Some(b"P-Access-Network-Info");
    }
    if name.eq_ignore_ascii_case(b"P-Asserted-Service") {
        return Some(b"P-Asserted-Service");
    }
    if name.eq_ignore_ascii_case(b"P-Early-Media") {
        return Some(b"P-Early-Media");
    }
    if name.eq_ignore_ascii_case(b"Subscription-State") {
        return Some(b"Subscription-State");
    }
    if name.eq_ignore_ascii_case(b"Expires") {
        return Some(b"Expires");
    }
    if name.eq_ignore_ascii_case(b"RSeq") {
        return Some(b"RSeq");
    }
    if name.eq_ignore_ascii_case(b"RAck") {
        return Some(b"RAck");
    }
    if name.eq_ignore_ascii_case(b"Min-SE") {
        return Some(b"Min-SE");
    }
    None
}

/// A name without a compact form, as this server spells it.
fn long_only(name: &[u8]) -> &[u8]
    ensures { result.now ≡ or_else (of_names routing_names name.now)
        (or_else (of_names content_names name.now) (or_else (of_names caller_names name.now) (or_else (of_names network_names name.now) name.now))) }
{
    match of_routing_names(name) {
        Some(long) => long,
        None => match of_content_names(name) {
            Some(long) => long,
            None => match of_caller_names(name) {
                Some(long) => long,
                None => match of_network_names(name) {
                    Some(long) => long,
                    None => name,
                },
            },
        },
    }
}

/// The name as this server spells it; one that it does not know stays as it is.
pub fn long_name(name: &[u8]) -> &[u8]
    ensures { result.now ≡ long_name name.now }
{
    match of_compact_forms(name) {
        Some(long) => long,
        None => match of_more_compact_forms(name) {
            Some(long) => long,
            None => long_only(name),
        },
    }
}
