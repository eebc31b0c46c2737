//! Files, keepers and sinks that fail, and files that break their grammars.

use crate::asserting::assert_right;
use crate::cases::wrong_run;

const DEVICES: &[u8] = br#"~ The third line of the configuration is bad.
=config:sip 127.0.0.1:5060;home home.example;peer x;
=status:2
at 0 peer 1|INVITE sip:bob@far.example SIP/2.0|Via: SIP/2.0/UDP 127.0.0.1:5071;branch=z9hG4bKa1|Max-Forwards: 68|From: "Erin" <sip:erin@other.example>;tag=a
|To: <sip:bob@far.example>|Call-ID: c1|CSeq: 7 INVITE|Contact: <sip:erin@127.0.0.1:5071>|P-Asserted-Identity: <sip:erin@other.example>|Privacy: id|Content-Length: 0|
~ That is told.
line 3
~ And the first of the script.
=config:sip 127.0.0.1:5060;home home.example;peer x;
=status:2
at x peer 1
~ The configuration comes first.
line 3
~ An empty configuration.
=config:
=status:2
at 0 peer 1|INVITE sip:bob@far.example SIP/2.0|Via: SIP/2.0/UDP 127.0.0.1:5071;branch=z9hG4bKa1|Max-Forwards: 68|From: "Erin" <sip:erin@other.example>;tag=a
|To: <sip:bob@far.example>|Call-ID: c1|CSeq: 7 INVITE|Contact: <sip:erin@127.0.0.1:5071>|P-Asserted-Identity: <sip:erin@other.example>|Privacy: id|Content-Length: 0|
~ One past the last, where a line is absent that has to be there.
line 1
~ A configuration without a home.
=config:sip 127.0.0.1:5060;
=status:2
at 0 peer 1|INVITE sip:bob@far.example SIP/2.0|Via: SIP/2.0/UDP 127.0.0.1:5071;branch=z9hG4bKa1|Max-Forwards: 68|From: "Erin" <sip:erin@other.example>;tag=a
|To: <sip:bob@far.example>|Call-ID: c1|CSeq: 7 INVITE|Contact: <sip:erin@127.0.0.1:5071>|P-Asserted-Identity: <sip:erin@other.example>|Privacy: id|Content-Length: 0|
~ That is told.
line 2
~ The third line of the script is bad.
=status:2
at 0 peer 1|a
at x peer 1
~ That is told.
line 3
~ A peer that is not there.
=status:2
at 0 peer 3
~ That is told.
line 1
~ A data line before any event.
=status:2

# none yet
|a
~ That is told.
line 3
~ No file is there.
=no-config
=no-script
=status:5
~ That is told.
file
~ No script is there.
=no-script
=status:5
~ That is told.
file
~ No configuration is there.
=no-config
=status:5
at 0 peer 1|INVITE sip:bob@far.example SIP/2.0|Via: SIP/2.0/UDP 127.0.0.1:5071;branch=z9hG4bKa1|Max-Forwards: 68|From: "Erin" <sip:erin@other.example>;tag=a
|To: <sip:bob@far.example>|Call-ID: c1|CSeq: 7 INVITE|Contact: <sip:erin@127.0.0.1:5071>|P-Asserted-Identity: <sip:erin@other.example>|Privacy: id|Content-Length: 0|
~ That is told.
file
~ A bad configuration, and no script.
=config:peer x;
=no-script
=status:2
~ That is told.
line 1
~ The read of a script that is not there is to fail.
=config:peer x;
=no-script
=status:2
=reads:2
~ That is told.
line 1
~ The first read fails.
=status:5
=reads:1
at 0 peer 1|INVITE sip:bob@far.example SIP/2.0|Via: SIP/2.0/UDP 127.0.0.1:5071;branch=z9hG4bKa1|Max-Forwards: 68|From: "Erin" <sip:erin@other.example>;tag=a
|To: <sip:bob@far.example>|Call-ID: c1|CSeq: 7 INVITE|Contact: <sip:erin@127.0.0.1:5071>|P-Asserted-Identity: <sip:erin@other.example>|Privacy: id|Content-Length: 0|
~ That is told.
file
~ The second read fails.
=status:5
=reads:2
at 0 peer 1|INVITE sip:bob@far.example SIP/2.0|Via: SIP/2.0/UDP 127.0.0.1:5071;branch=z9hG4bKa1|Max-Forwards: 68|From: "Erin" <sip:erin@other.example>;tag=a
|To: <sip:bob@far.example>|Call-ID: c1|CSeq: 7 INVITE|Contact: <sip:erin@127.0.0.1:5071>|P-Asserted-Identity: <sip:erin@other.example>|Privacy: id|Content-Length: 0|
~ That is told.
file
~ Both fail.
=status:5
=reads:2 1
at 0 peer 1|INVITE sip:bob@far.example SIP/2.0|Via: SIP/2.0/UDP 127.0.0.1:5071;branch=z9hG4bKa1|Max-Forwards: 68|From: "Erin" <sip:erin@other.example>;tag=a
|To: <sip:bob@far.example>|Call-ID: c1|CSeq: 7 INVITE|Contact: <sip:erin@127.0.0.1:5071>|P-Asserted-Identity: <sip:erin@other.example>|Privacy: id|Content-Length: 0|
~ That is told.
file
~ A third read is to fail.
=reads:3
at 0 peer 1|INVITE sip:bob@far.example SIP/2.0|Via: SIP/2.0/UDP 127.0.0.1:5071;branch=z9hG4bKa1|Max-Forwards: 68|From: "Erin" <sip:erin@other.example>;tag=a
|To: <sip:bob@far.example>|Call-ID: c1|CSeq: 7 INVITE|Contact: <sip:erin@127.0.0.1:5071>|P-Asserted-Identity: <sip:erin@other.example>|Privacy: id|Content-Length: 0|
~ It is not made.
at 0 to 1|SIP/2.0 100 Trying|Via: SIP/2.0/UDP 127.0.0.1:5071;branch=z9hG4bKa1|From: "Erin" <sip:erin@other.example>;tag=a|To: <sip:bob@far.example>|Call-ID: c1
|CSeq: 7 INVITE|Content-Length: 0|
at 0 to 2|INVITE sip:bob@far.example SIP/2.0|Via: SIP/2.0/UDP 127.0.0.1:5060;branch=z9hG4bK0123456789abcdef-4|Max-Forwards: 67
|From: "Anonymous" <sip:anonymous@anonymous.invalid>;tag=0123456789abcdef-3|To: <sip:bob@far.example>|Call-ID: 0123456789abcdef-2|CSeq: 1 INVITE
|Contact: <sip:127.0.0.1:5060>|Content-Length: 0|
~ So are others that are not made.
=reads:0 4
at 0 peer 1|INVITE sip:bob@far.example SIP/2.0|Via: SIP/2.0/UDP 127.0.0.1:5071;branch=z9hG4bKa1|Max-Forwards: 68|From: "Erin" <sip:erin@other.example>;tag=a
|To: <sip:bob@far.example>|Call-ID: c1|CSeq: 7 INVITE|Contact: <sip:erin@127.0.0.1:5071>|P-Asserted-Identity: <sip:erin@other.example>|Privacy: id|Content-Length: 0|
~ That is told.
at 0 to 1|SIP/2.0 100 Trying|Via: SIP/2.0/UDP 127.0.0.1:5071;branch=z9hG4bKa1|From: "Erin" <sip:erin@other.example>;tag=a|To: <sip:bob@far.example>|Call-ID: c1
|CSeq: 7 INVITE|Content-Length: 0|
at 0 to 2|INVITE sip:bob@far.example SIP/2.0|Via: SIP/2.0/UDP 127.0.0.1:5060;branch=z9hG4bK0123456789abcdef-4|Max-Forwards: 67
|From: "Anonymous" <sip:anonymous@anonymous.invalid>;tag=0123456789abcdef-3|To: <sip:bob@far.example>|Call-ID: 0123456789abcdef-2|CSeq: 1 INVITE
|Contact: <sip:127.0.0.1:5060>|Content-Length: 0|
~ The keeper cannot be bound, its first call.
=status:6
=keeps:1
at 0 peer 1|INVITE sip:bob@far.example SIP/2.0|Via: SIP/2.0/UDP 127.0.0.1:5071;branch=z9hG4bKa1|Max-Forwards: 68|From: "Erin" <sip:erin@other.example>;tag=a
|To: <sip:bob@far.example>|Call-ID: c1|CSeq: 7 INVITE|Contact: <sip:erin@127.0.0.1:5071>|P-Asserted-Identity: <sip:erin@other.example>|Privacy: id|Content-Length: 0|
~ That is told.
keeper
~ It cannot be migrated, its second.
=status:6
=keeps:2
at 0 peer 1|INVITE sip:bob@far.example SIP/2.0|Via: SIP/2.0/UDP 127.0.0.1:5071;branch=z9hG4bKa1|Max-Forwards: 68|From: "Erin" <sip:erin@other.example>;tag=a
|To: <sip:bob@far.example>|Call-ID: c1|CSeq: 7 INVITE|Contact: <sip:erin@127.0.0.1:5071>|P-Asserted-Identity: <sip:erin@other.example>|Privacy: id|Content-Length: 0|
~ That is told.
keeper
~ It cannot be loaded, its third.
=status:6
=keeps:3
at 0 peer 1|INVITE sip:bob@far.example SIP/2.0|Via: SIP/2.0/UDP 127.0.0.1:5071;branch=z9hG4bKa1|Max-Forwards: 68|From: "Erin" <sip:erin@other.example>;tag=a
|To: <sip:bob@far.example>|Call-ID: c1|CSeq: 7 INVITE|Contact: <sip:erin@127.0.0.1:5071>|P-Asserted-Identity: <sip:erin@other.example>|Privacy: id|Content-Length: 0|
~ That is told.
keeper
~ Neither.
=status:6
=keeps:1 2
at 0 peer 1|INVITE sip:bob@far.example SIP/2.0|Via: SIP/2.0/UDP 127.0.0.1:5071;branch=z9hG4bKa1|Max-Forwards: 68|From: "Erin" <sip:erin@other.example>;tag=a
|To: <sip:bob@far.example>|Call-ID: c1|CSeq: 7 INVITE|Contact: <sip:erin@127.0.0.1:5071>|P-Asserted-Identity: <sip:erin@other.example>|Privacy: id|Content-Length: 0|
~ That is told.
keeper
~ A fourth call is to fail.
=keeps:4
at 0 peer 1|INVITE sip:bob@far.example SIP/2.0|Via: SIP/2.0/UDP 127.0.0.1:5071;branch=z9hG4bKa1|Max-Forwards: 68|From: "Erin" <sip:erin@other.example>;tag=a
|To: <sip:bob@far.example>|Call-ID: c1|CSeq: 7 INVITE|Contact: <sip:erin@127.0.0.1:5071>|P-Asserted-Identity: <sip:erin@other.example>|Privacy: id|Content-Length: 0|
~ Nothing else is asked of it in a run without uploads.
at 0 to 1|SIP/2.0 100 Trying|Via: SIP/2.0/UDP 127.0.0.1:5071;branch=z9hG4bKa1|From: "Erin" <sip:erin@other.example>;tag=a|To: <sip:bob@far.example>|Call-ID: c1
|CSeq: 7 INVITE|Content-Length: 0|
at 0 to 2|INVITE sip:bob@far.example SIP/2.0|Via: SIP/2.0/UDP 127.0.0.1:5060;branch=z9hG4bK0123456789abcdef-4|Max-Forwards: 67
|From: "Anonymous" <sip:anonymous@anonymous.invalid>;tag=0123456789abcdef-3|To: <sip:bob@far.example>|Call-ID: 0123456789abcdef-2|CSeq: 1 INVITE
|Contact: <sip:127.0.0.1:5060>|Content-Length: 0|
~ A bad script, and a keeper that cannot be bound.
=status:2
=keeps:1
at 0
~ The files come first.
line 1
~ No script, and such a keeper.
=no-script
=status:5
=keeps:1
~ That is told.
file
~ Such a keeper and another command.
=words:check|run.script
=keeps:1
~ It is not asked.
ok
~ `charges`, where the keeper has no rows.
=words:charges|server.cfg
=no-script
~ The head of the rows alone.
kind,account,call,began,answered,ended,holds,cause,status
~ `charges`, and the keeper cannot be bound.
=words:charges|server.cfg
=no-script
=status:6
=keeps:1
~ That is told.
keeper
~ It cannot give its rows, its second call.
=words:charges|server.cfg
=no-script
=status:6
=keeps:2
~ That is told.
keeper
~ A third call is to fail.
=words:charges|server.cfg
=no-script
=keeps:3
~ It is not made.
kind,account,call,began,answered,ended,holds,cause,status
~ `charges`, a bad configuration, and a keeper that cannot be bound.
=words:charges|server.cfg
=config:peer x;
=no-script
=status:2
=keeps:1
~ The file comes first.
line 1
~ `charges`, no file, and such a keeper.
=words:charges|server.cfg
=no-config
=no-script
=status:5
=keeps:1
~ That is told.
file
~ Such a keeper and a usage that is wrong.
=words:replay
=status:1
=keeps:1
at 0 peer 1|INVITE sip:bob@far.example SIP/2.0|Via: SIP/2.0/UDP 127.0.0.1:5071;branch=z9hG4bKa1|Max-Forwards: 68|From: "Erin" <sip:erin@other.example>;tag=a
|To: <sip:bob@far.example>|Call-ID: c1|CSeq: 7 INVITE|Contact: <sip:erin@127.0.0.1:5071>|P-Asserted-Identity: <sip:erin@other.example>|Privacy: id|Content-Length: 0|
~ That is told.
usage
~ A sink that takes a byte a write.
=most:1
at 0 peer 1|INVITE sip:bob@far.example SIP/2.0|Via: SIP/2.0/UDP 127.0.0.1:5071;branch=z9hG4bKa1|Max-Forwards: 68|From: "Erin" <sip:erin@other.example>;tag=a
|To: <sip:bob@far.example>|Call-ID: c1|CSeq: 7 INVITE|Contact: <sip:erin@127.0.0.1:5071>|P-Asserted-Identity: <sip:erin@other.example>|Privacy: id|Content-Length: 0|
~ That is told.
at 0 to 1|SIP/2.0 100 Trying|Via: SIP/2.0/UDP 127.0.0.1:5071;branch=z9hG4bKa1|From: "Erin" <sip:erin@other.example>;tag=a|To: <sip:bob@far.example>|Call-ID: c1
|CSeq: 7 INVITE|Content-Length: 0|
at 0 to 2|INVITE sip:bob@far.example SIP/2.0|Via: SIP/2.0/UDP 127.0.0.1:5060;branch=z9hG4bK0123456789abcdef-4|Max-Forwards: 67
|From: "Anonymous" <sip:anonymous@anonymous.invalid>;tag=0123456789abcdef-3|To: <sip:bob@far.example>|Call-ID: 0123456789abcdef-2|CSeq: 1 INVITE
|Contact: <sip:127.0.0.1:5060>|Content-Length: 0|
~ One with room for the listing alone, by seven bytes.
=room:532
=most:7
at 0 peer 1|INVITE sip:bob@far.example SIP/2.0|Via: SIP/2.0/UDP 127.0.0.1:5071;branch=z9hG4bKa1|Max-Forwards: 68|From: "Erin" <sip:erin@other.example>;tag=a
|To: <sip:bob@far.example>|Call-ID: c1|CSeq: 7 INVITE|Contact: <sip:erin@127.0.0.1:5071>|P-Asserted-Identity: <sip:erin@other.example>|Privacy: id|Content-Length: 0|
~ That is told.
at 0 to 1|SIP/2.0 100 Trying|Via: SIP/2.0/UDP 127.0.0.1:5071;branch=z9hG4bKa1|From: "Erin" <sip:erin@other.example>;tag=a|To: <sip:bob@far.example>|Call-ID: c1
|CSeq: 7 INVITE|Content-Length: 0|
at 0 to 2|INVITE sip:bob@far.example SIP/2.0|Via: SIP/2.0/UDP 127.0.0.1:5060;branch=z9hG4bK0123456789abcdef-4|Max-Forwards: 67
|From: "Anonymous" <sip:anonymous@anonymous.invalid>;tag=0123456789abcdef-3|To: <sip:bob@far.example>|Call-ID: 0123456789abcdef-2|CSeq: 1 INVITE
|Contact: <sip:127.0.0.1:5060>|Content-Length: 0|
~ One that fails at once.
=status:7
=writes:1
at 0 peer 1|INVITE sip:bob@far.example SIP/2.0|Via: SIP/2.0/UDP 127.0.0.1:5071;branch=z9hG4bKa1|Max-Forwards: 68|From: "Erin" <sip:erin@other.example>;tag=a
|To: <sip:bob@far.example>|Call-ID: c1|CSeq: 7 INVITE|Contact: <sip:erin@127.0.0.1:5071>|P-Asserted-Identity: <sip:erin@other.example>|Privacy: id|Content-Length: 0|
~ A listing that is cut short is status 7.
~ One that fails in the midst.
=status:7
=cut
=most:4
=writes:3
at 0 peer 1|INVITE sip:bob@far.example SIP/2.0|Via: SIP/2.0/UDP 127.0.0.1:5071;branch=z9hG4bKa1|Max-Forwards: 68|From: "Erin" <sip:erin@other.example>;tag=a
|To: <sip:bob@far.example>|Call-ID: c1|CSeq: 7 INVITE|Contact: <sip:erin@127.0.0.1:5071>|P-Asserted-Identity: <sip:erin@other.example>|Privacy: id|Content-Length: 0|
~ That is told.
at 0 to 
~ One that is to fail twice.
=status:7
=cut
=most:1
=writes:11 5
at 0 peer 1|INVITE sip:bob@far.example SIP/2.0|Via: SIP/2.0/UDP 127.0.0.1:5071;branch=z9hG4bKa1|Max-Forwards: 68|From: "Erin" <sip:erin@other.example>;tag=a
|To: <sip:bob@far.example>|Call-ID: c1|CSeq: 7 INVITE|Contact: <sip:erin@127.0.0.1:5071>|P-Asserted-Identity: <sip:erin@other.example>|Privacy: id|Content-Length: 0|
~ That is told.
at 0
~ One whose room ends.
=status:7
=cut
=room:12
=most:5
at 0 peer 1|INVITE sip:bob@far.example SIP/2.0|Via: SIP/2.0/UDP 127.0.0.1:5071;branch=z9hG4bKa1|Max-Forwards: 68|From: "Erin" <sip:erin@other.example>;tag=a
|To: <sip:bob@far.example>|Call-ID: c1|CSeq: 7 INVITE|Contact: <sip:erin@127.0.0.1:5071>|P-Asserted-Identity: <sip:erin@other.example>|Privacy: id|Content-Length: 0|
~ That is told.
at 0 to 1|S
~ One that has no room.
=status:7
=room:0
at 0 peer 1|INVITE sip:bob@far.example SIP/2.0|Via: SIP/2.0/UDP 127.0.0.1:5071;branch=z9hG4bKa1|Max-Forwards: 68|From: "Erin" <sip:erin@other.example>;tag=a
|To: <sip:bob@far.example>|Call-ID: c1|CSeq: 7 INVITE|Contact: <sip:erin@127.0.0.1:5071>|P-Asserted-Identity: <sip:erin@other.example>|Privacy: id|Content-Length: 0|
~ That is told.
~ One that takes nothing in a write.
=status:7
=most:0
at 0 peer 1|INVITE sip:bob@far.example SIP/2.0|Via: SIP/2.0/UDP 127.0.0.1:5071;branch=z9hG4bKa1|Max-Forwards: 68|From: "Erin" <sip:erin@other.example>;tag=a
|To: <sip:bob@far.example>|Call-ID: c1|CSeq: 7 INVITE|Contact: <sip:erin@127.0.0.1:5071>|P-Asserted-Identity: <sip:erin@other.example>|Privacy: id|Content-Length: 0|
~ That is told.
~ One that is to fail behind the end.
=writes:2
at 0 peer 1|INVITE sip:bob@far.example SIP/2.0|Via: SIP/2.0/UDP 127.0.0.1:5071;branch=z9hG4bKa1|Max-Forwards: 68|From: "Erin" <sip:erin@other.example>;tag=a
|To: <sip:bob@far.example>|Call-ID: c1|CSeq: 7 INVITE|Contact: <sip:erin@127.0.0.1:5071>|P-Asserted-Identity: <sip:erin@other.example>|Privacy: id|Content-Length: 0|
~ That is told.
at 0 to 1|SIP/2.0 100 Trying|Via: SIP/2.0/UDP 127.0.0.1:5071;branch=z9hG4bKa1|From: "Erin" <sip:erin@other.example>;tag=a|To: <sip:bob@far.example>|Call-ID: c1
|CSeq: 7 INVITE|Content-Length: 0|
at 0 to 2|INVITE sip:bob@far.example SIP/2.0|Via: SIP/2.0/UDP 127.0.0.1:5060;branch=z9hG4bK0123456789abcdef-4|Max-Forwards: 67
|From: "Anonymous" <sip:anonymous@anonymous.invalid>;tag=0123456789abcdef-3|To: <sip:bob@far.example>|Call-ID: 0123456789abcdef-2|CSeq: 1 INVITE
|Contact: <sip:127.0.0.1:5060>|Content-Length: 0|
~ Room for two bytes, and no file.
=no-config
=no-script
=status:5
=cut
=room:2
~ Every other status stays.
fi
~ And a usage that is wrong.
=words:replay
=status:1
=no-config
=no-script
=cut
=room:2
~ That is told.
us
~ Room for six, and a bad configuration.
=config:peer x;
=no-script
=status:2
=cut
=room:6
~ That is told.
line 1
~ Room for six, and `charges`.
=words:charges|server.cfg
=status:7
=cut
=room:6
at 0 peer 1|INVITE sip:bob@far.example SIP/2.0|Via: SIP/2.0/UDP 127.0.0.1:5071;branch=z9hG4bKa1|Max-Forwards: 68|From: "Erin" <sip:erin@other.example>;tag=a
|To: <sip:bob@far.example>|Call-ID: c1|CSeq: 7 INVITE|Contact: <sip:erin@127.0.0.1:5071>|P-Asserted-Identity: <sip:erin@other.example>|Privacy: id|Content-Length: 0|
~ Its text is cut short.
kind,a
~ Room for five, and a keeper that cannot be loaded.
=status:6
=keeps:3
=cut
=room:5
at 0 peer 1|INVITE sip:bob@far.example SIP/2.0|Via: SIP/2.0/UDP 127.0.0.1:5071;branch=z9hG4bKa1|Max-Forwards: 68|From: "Erin" <sip:erin@other.example>;tag=a
|To: <sip:bob@far.example>|Call-ID: c1|CSeq: 7 INVITE|Contact: <sip:erin@127.0.0.1:5071>|P-Asserted-Identity: <sip:erin@other.example>|Privacy: id|Content-Length: 0|
~ That is told.
keepe
"#;

#[test]
fn devices(rt: HostRuntime) {
    assert_right(&rt, "DEVICES", wrong_run(rt.alloc(), DEVICES));
}
