//! What conferences send. These are theorems, without code.
ghost use Rattle.mmtel_focus_theorems.specs.NoInjection.{EmitsHaveNoInjection, EmitsHaveOwnFields};

/// Whatever is done on a table of conferences, each message that is sent is clean, and its text has its start line, its header fields and its body, and nothing else. So nobody
/// injects a header field into a message to another; and none comes from the ACK of a 2xx, since a conference relays no ACK. This holds where the header fields and reason
/// phrases that are received are clean, as those of each parsed message are, and so are the dialogs of the legs that enter, and the text of tokens.
pub fn conferences_send_no_injection()
    ensures no_injection { EmitsHaveNoInjection }
    ensures lines { EmitsHaveOwnFields }
{}
