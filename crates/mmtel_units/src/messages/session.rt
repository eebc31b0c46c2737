//! Session timers: the values of the header fields, what a request may require, and when a session expires.

use crate::asserting::assert_right;
use crate::messages::drafts::{add, request};
use mmtel_lex::Text;
use mmtel_message::Msg;
use mmtel_session::{SessionExpires, SessionFault, check, expiry_interval_of, read_session};
use mmtel_test_tables::{RowRunner, Transcript, split_or_all, wrong_line};

/// Writes the content of a value: the interval, and the refresher.
fn write_session(transcript: &mut Transcript, session: SessionExpires) {
    transcript.add_number(u64::from(session.interval));
    match session.caller_refreshes {
        None => {}
        Some(caller) => transcript.add_if(caller, b" uac", b" uas"),
    }
}

fn write_value(transcript: &mut Transcript, value: &[u8]) {
    match read_session(value) {
        Ok(session) => write_session(transcript, session),
        Err(_) => transcript.add(b"malformed"),
    }
}

/// A message with a header field Session-Expires for each of the values, which bars separate; of three at most.
fn message_with(transcript: &mut Transcript, values: &[u8]) -> Msg {
    let start = request(transcript, b"INVITE");
    let mut message = Msg::new(start, Text::new());
    let mut rest = values;
    for _ in 0..3 {
        if !rest.is_empty() {
            let (value, later) = split_or_all(b'|', rest);
            add(transcript, &mut message, b"session-expires", value);
            rest = later;
        }
    }
    message
}

fn write_check(transcript: &mut Transcript, message: &Msg) {
    match check(message) {
        Ok(None) => transcript.add(b"none"),
        Ok(Some(interval)) => transcript.add_number(u64::from(interval)),
        Err(SessionFault::Malformed) => transcript.add(b"malformed"),
        Err(SessionFault::Small { interval }) => {
            transcript.add(b"small");
            transcript.add_spaced_number(u64::from(interval));
        }
    }
}

fn write_expiry(transcript: &mut Transcript, message: &Msg) {
    match expiry_interval_of(message) {
        None => transcript.add(b"none"),
        Some(time) => transcript.add_number(time),
    }
}

#[derive(Drop)]
struct Sessions;

/// `=` writes the content of a value. `?` writes what a request with these values requires, and `@` after how many milliseconds a 2xx with them expires.
impl RowRunner for Sessions {
    fn run_row(&mut self, transcript: &mut Transcript, asked: &[u8]) {
        match asked {
            [b'=', value @ ..] => write_value(transcript, value),
            [b'?', values @ ..] => {
                let message = message_with(transcript, values);
                write_check(transcript, &message);
                drop(message);
            }
            [_, values @ ..] => {
                let message = message_with(transcript, values);
                write_expiry(transcript, &message);
                drop(message);
            }
            [] => transcript.fail(),
        }
        transcript.add(b"\n");
    }
}

/// RFC 4028 §4: the example, both words of `refresher`, other parameters; numbers of SIP may begin with zeros (RFC 3261 §25.1). Names of parameters are compared without case, and
/// the first of a name counts (RFC 3261 §7.3.1). Refused are another word, one in another case or in quotes, a `refresher` without a word, spaces, and numbers from 2^31 on.
const VALUES: &[u8] = b"> =4000;refresher=uac
4000 uac
> =3600;refresher=uas
3600 uas
> =90
90
> =0
0
> =0090;refresher=uac
90 uac
> =2147483647
2147483647
> =2147483648
malformed
> =99999999999999999999999999
malformed
> =
malformed
> =-90
malformed
> =90.5
malformed
> =90s
malformed
> =;refresher=uac
malformed
> =90;REFRESHER=uac
90 uac
> =90;refresher=UAC
malformed
> =90;refresher=\"uac\"
malformed
> =90;refresher=me
malformed
> =90;refresher=uacs
malformed
> =90;refresher
malformed
> =90;refresher=
malformed
> =90;refresher=uac;refresher=me
90 uac
> =90;refresher=me;refresher=uac
malformed
> =90;refresher;refresher=uac
malformed
> =90;other;more=\"a;refresher=me\";refresher=uas
90 uas
> =90;refreshers=me
90
> =90;other=\"a
malformed
> =90;refresher=uac;
malformed
> =90 ;refresher=uac
malformed
> =90; refresher=uac
malformed
> =90;refresher= uac
malformed
> =90,100
malformed
";

/// RFC 4028 §5: the minimum interval is 90 seconds; §4: one header field at most.
const INTERVALS: &[u8] = b"> ?
none
> ?89
small 89
> ?90
90
> ?91
91
> ?0
small 0
> ?00089;refresher=uac
small 89
> ?4000;refresher=uac
4000
> ?2147483647
2147483647
> ?2147483648
malformed
> ?89;refresher=me
malformed
> ?90|90
malformed
> ?1800|89
malformed
> ?me|90
malformed
> ?90|90|90
malformed
";

/// RFC 4028 §10: the session expires when the interval has passed; one below the minimum counts as the minimum. Of several header fields the first counts.
const EXPIRIES: &[u8] = b"> @
none
> @1800;refresher=uas
1800000
> @90;refresher=uac
90000
> @91
91000
> @89
90000
> @0
90000
> @2147483647
2147483647000
> @2147483648
none
> @me
none
> @120|90
120000
> @30|180
90000
> @me|90
none
";

#[test]
fn sessions_are_read_and_expire(rt: HostRuntime) {
    assert_right(&rt, "VALUES", wrong_line(rt.alloc(), &mut Sessions, VALUES));
    assert_right(
        &rt,
        "INTERVALS",
        wrong_line(rt.alloc(), &mut Sessions, INTERVALS),
    );
    assert_right(
        &rt,
        "EXPIRIES",
        wrong_line(rt.alloc(), &mut Sessions, EXPIRIES),
    );
}
