//! Files that are checked: whether each is a service record, and else its first fault; and files that do not exist or cannot be read, and sinks that fail.

use crate::asserting::assert_right;
use crate::cases::wrong_run;

/// The file is the script of a case.
const CHECKS: &[u8] = br#"~ An empty text.
=words:check|run.script
~ A record.
ok
~ A comment.
=words:check|run.script
# nothing
~ A record.
ok
~ Waiting.
=words:check|run.script
[communication-waiting]
calls = 8
~ A record.
ok
~ No value.
=words:check|run.script
=status:3
calls = 
~ That is told.
not toml
~ A bracket that is not closed.
=words:check|run.script
=status:3
[communication-waiting
~ That is told.
not toml
~ A key outside a service.
=words:check|run.script
=status:3
calls = 2
~ That is told.
unknown calls
~ A key that waiting has not.
=words:check|run.script
=status:3
[communication-waiting]
call = 2
~ That is told.
unknown communication-waiting.call
~ A value that is too large.
=words:check|run.script
=status:3
[communication-waiting]
calls = 9
~ That is told.
wrong communication-waiting.calls
~ Two faults.
=words:check|run.script
=status:3
[communication-waiting]
calls = 9
[communication-diversion]
no-reply-time = 4
~ The first in the walk over the document.
wrong communication-diversion.no-reply-time
~ A rule that is empty.
=words:check|run.script
=status:3
[[communication-diversion.rule]]
~ That is told.
wrong communication-diversion.rule.0.target
~ A rule of 65 identities, one more than there may be.
=words:check|run.script
=status:3
[[outgoing-communication-barring.rule]]
one = ["sip:u0@h", "sip:u1@h", "sip:u2@h", "sip:u3@h", "sip:u4@h", "sip:u5@h", "sip:u6@h", "sip:u7@h", "sip:u8@h", "sip:u9@h", "sip:u10@h", "sip:u11@h", "sip:u12@h", \
"sip:u13@h", "sip:u14@h", "sip:u15@h", "sip:u16@h", "sip:u17@h", "sip:u18@h", "sip:u19@h", "sip:u20@h", "sip:u21@h", "sip:u22@h", "sip:u23@h", "sip:u24@h", "sip:u25@h", \
"sip:u26@h", "sip:u27@h", "sip:u28@h", "sip:u29@h", "sip:u30@h", "sip:u31@h", "sip:u32@h", "sip:u33@h", "sip:u34@h", "sip:u35@h", "sip:u36@h", "sip:u37@h", "sip:u38@h", \
"sip:u39@h", "sip:u40@h", "sip:u41@h", "sip:u42@h", "sip:u43@h", "sip:u44@h", "sip:u45@h", "sip:u46@h", "sip:u47@h", "sip:u48@h", "sip:u49@h", "sip:u50@h", "sip:u51@h", \
"sip:u52@h", "sip:u53@h", "sip:u54@h", "sip:u55@h", "sip:u56@h", "sip:u57@h", "sip:u58@h", "sip:u59@h", "sip:u60@h", "sip:u61@h", "sip:u62@h", "sip:u63@h", "sip:u64@h"]
allow = false
~ That is told.
many outgoing-communication-barring.rule.0.one 64
~ A file that is not there.
=words:check|other
=status:5
~ That is told.
file
~ A file that cannot be read.
=words:check|run.script
=status:5
=reads:1
~ That is told.
file
~ `ok` is cut short.
=words:check|run.script
=status:7
=room:2
=cut
~ Status 7.
ok
~ The line of a fault is cut short.
=words:check|run.script
=status:3
=room:9
=cut
calls = 2
~ Status 3 stays.
unknown c
~ A later read and a later write fail.
=words:check|run.script
=reads:2
=writes:2
~ Neither is made.
ok
"#;

#[test]
fn checks(rt: HostRuntime) {
    assert_right(&rt, "CHECKS", wrong_run(rt.alloc(), CHECKS));
}
