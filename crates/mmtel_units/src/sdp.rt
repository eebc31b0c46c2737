//! Session descriptions, and the offer and answer of the conference mixer.
//!
//! A `|` in a row ends a line of a description.

use crate::asserting::assert_right;
use mmtel_base::{List, NoMemory, Text, split_once_at};
use mmtel_sdp::{
    AnswerFault, Direction, Medium, Mixer, SdpFault, SdpView, direction_in_body, kinds_of, look,
    mixer_answer, mixer_offer, offers_audio, view_of,
};
use mmtel_test_tables::{RowRunner, Transcript, wrong_line};

fn direction_name(direction: Direction) -> &'static [u8] {
    match direction {
        Direction::SendRecv => b"sendrecv",
        Direction::SendOnly => b"sendonly",
        Direction::RecvOnly => b"recvonly",
        Direction::Inactive => b"inactive",
    }
}

/// Adds a medium as `;kind,protocol,format,map`.
fn add_medium(transcript: &mut Transcript, medium: &Medium) {
    transcript.add(b";");
    transcript.add(medium.kind.bytes());
    transcript.add(b",");
    transcript.add(medium.proto.bytes());
    transcript.add(b",");
    transcript.add(medium.format.bytes());
    transcript.add(b",");
    transcript.add(medium.map.bytes());
}

/// Adds the direction and the media.
fn add_view(transcript: &mut Transcript, view: &SdpView) {
    transcript.add(direction_name(view.direction));
    for medium in view.media.items() {
        add_medium(transcript, medium);
    }
    transcript.add(b"\n");
}

/// The media and direction of a description whose lines end like this, or that it is none.
#[derive(Drop)]
struct Views {
    end: &'static [u8],
}

impl RowRunner for Views {
    fn run_row(&mut self, transcript: &mut Transcript, asked: &[u8]) {
        let mut body = Transcript::new(transcript.alloc);
        body.add_ended(b'|', asked, self.end);
        match look(transcript.alloc, body.bytes()) {
            Ok(view) => add_view(transcript, &view),
            Err(SdpFault::NotSdp) => transcript.add_line(b"no session description"),
            Err(SdpFault::NoMemory) => transcript.fail(),
        }
    }
}

/// The example of RFC 4566 §5, the offer and the later offer of RFC 3264 §10.1, the offer of §10.2; the medium's direction comes before the session's, and the first before later
/// ones; a direction under another medium is not the audio's; without audio the session's remains; the first map of the first format, and no other; a port need not be a number,
/// and lines of any letter are accepted. Then bodies that are no session descriptions.
const BODIES: &[u8] =
    b"> v=0|o=jdoe 2890844526 2890842807 IN IP4 10.47.16.5|s=SDP Seminar|i=A Seminar on the session description protocol|u=http://www.example.com/seminars/sdp.pdf|\
e=j.doe@example.com (Jane Doe)|c=IN IP4 224.2.17.12/127|t=2873397496 2873404696|a=recvonly|m=audio 49170 RTP/AVP 0|m=video 51372 RTP/AVP 99|a=rtpmap:99 h263-1998/90000|
recvonly;audio,RTP/AVP,0,;video,RTP/AVP,99,99 h263-1998/90000
> v=0|o=alice 2890844526 2890844526 IN IP4 host.anywhere.com|s=|c=IN IP4 host.anywhere.com|t=0 0|m=audio 49170 RTP/AVP 0|a=rtpmap:0 PCMU/8000|m=video 51372 RTP/AVP 31|\
a=rtpmap:31 H261/90000|m=video 53000 RTP/AVP 32|a=rtpmap:32 MPV/90000|
sendrecv;audio,RTP/AVP,0,0 PCMU/8000;video,RTP/AVP,31,31 H261/90000;video,RTP/AVP,32,32 MPV/90000
> v=0|o=bob 2890844730 2890844731 IN IP4 host.example.com|s=|c=IN IP4 host.example.com|t=0 0|m=audio 65422 RTP/AVP 0|a=rtpmap:0 PCMU/8000|m=video 0 RTP/AVP 31|m=video \
53000 RTP/AVP 32|a=rtpmap:32 MPV/90000|m=audio 51434 RTP/AVP 110|a=rtpmap:110 telephone-events/8000|a=recvonly|
sendrecv;audio,RTP/AVP,0,0 PCMU/8000;video,RTP/AVP,31,;video,RTP/AVP,32,32 MPV/90000;audio,RTP/AVP,110,110 telephone-events/8000
> v=0|o=alice 2890844526 2890844526 IN IP4 host.anywhere.com|s=|c=IN IP4 host.anywhere.com|t=0 0|m=audio 62986 RTP/AVP 0 4 18|a=rtpmap:0 PCMU/8000|a=rtpmap:4 G723/8000|\
a=rtpmap:18 G729/8000|a=inactive|
inactive;audio,RTP/AVP,0,0 PCMU/8000
> v=0|a=inactive|m=audio 1 RTP/AVP 8|a=sendonly|a=recvonly|
sendonly;audio,RTP/AVP,8,
> v=0|a=sendonly|m=video 1 RTP/AVP 31|a=inactive|m=audio 1 RTP/AVP 8|
sendonly;video,RTP/AVP,31,;audio,RTP/AVP,8,
> v=0|a=recvonly|m=video 1 RTP/AVP 31|a=inactive|
recvonly;video,RTP/AVP,31,
> v=0|a=rtpmap:8 A/1|m=audio 1 RTP/AVP 8 0|a=rtpmap:0 B/1|a=rtpmap:80 C/1|a=rtpmap:8 D/1|a=rtpmap:8 E/1|
sendrecv;audio,RTP/AVP,8,8 D/1
> v=0|x=|m=audio $/2 RTP/SAVP 8|?=y|
sendrecv;audio,RTP/SAVP,8,
> 
no session description
> v=0|
no session description
> m=audio 1 RTP/AVP 0|
no session description
> v=1|m=audio 1 RTP/AVP 0|
no session description
> v=00|m=audio 1 RTP/AVP 0|
no session description
> V=0|m=audio 1 RTP/AVP 0|
no session description
> s=-|v=0|m=audio 1 RTP/AVP 0|
no session description
> v=0|m=audio 1 RTP/AVP 0
no session description
> v=0||m=audio 1 RTP/AVP 0|
no session description
> v=0|m=audio 1 RTP/AVP 0||
no session description
> v=0|session|m=audio 1 RTP/AVP 0|
no session description
> v=0|s=a\rb|m=audio 1 RTP/AVP 0|
no session description
> v=0\r\r|m=audio 1 RTP/AVP 0\r|
no session description
> v=0|m=audio 1 RTP/AVP|
no session description
> v=0|m=audio  1 RTP/AVP 0|
no session description
> v=0|m=audio 1 RTP/AVP 0 |
no session description
> v=0|m= 1 RTP/AVP 0|
no session description
> v=0|m=audio 1 RTP/AVP 0|m=video|
no session description
";

#[test]
fn looks_into_bodies(rt: HostRuntime) {
    assert_right(
        &rt,
        "BODIES with LF",
        wrong_line(rt.alloc(), &mut Views { end: b"\n" }, BODIES),
    );
    assert_right(
        &rt,
        "BODIES with CRLF",
        wrong_line(rt.alloc(), &mut Views { end: b"\r\n" }, BODIES),
    );
}

const MIXER: Mixer = Mixer {
    ip: [192, 0, 2, 10],
    port: 40000,
};

/// Adds a text of the mixer, with `|` for each CRLF, and `?|` for an LF alone.
fn add_lines(transcript: &mut Transcript, text: &[u8]) {
    let mut rest = text;
    for _ in 0..100 {
        match split_once_at(b'\n', rest) {
            None => {
                transcript.add_line(rest);
                return;
            }
            Some((line, later)) => {
                transcript.add(line.strip_suffix(b"\r").unwrap_or(b"?"));
                transcript.add(b"|");
                rest = later;
            }
        }
    }
}

fn add_sdp_answer(transcript: &mut Transcript, view: &SdpView) {
    match mixer_answer(transcript.alloc, view, MIXER) {
        Ok(answer) => add_lines(transcript, answer.bytes()),
        Err(AnswerFault::NoAudio) => transcript.add_line(b"no audio"),
        Err(AnswerFault::NoMemory) => transcript.fail(),
    }
}

/// Adds the mixer's own offer.
fn add_offer(transcript: &mut Transcript) {
    match mixer_offer(transcript.alloc, MIXER) {
        Ok(offer) => add_lines(transcript, offer.bytes()),
        Err(NoMemory) => transcript.fail(),
    }
}

/// The mixer's answer to an offer; its own offer where there is none.
#[derive(Drop)]
struct Answers;

impl RowRunner for Answers {
    fn run_row(&mut self, transcript: &mut Transcript, asked: &[u8]) {
        let mut offer = Transcript::new(transcript.alloc);
        offer.add_ended(b'|', asked, b"\n");
        match look(transcript.alloc, offer.bytes()) {
            Ok(view) => add_sdp_answer(transcript, &view),
            Err(SdpFault::NotSdp) => add_offer(transcript),
            Err(SdpFault::NoMemory) => transcript.fail(),
        }
    }
}

/// The mixer accepts the first audio medium, keeps its map, reverses its direction, and refuses the other media; without audio it has no answer. Its own offer is audio alone.
const ANSWERS: &[u8] =
    b"> v=0|o=jdoe 2890844526 2890842807 IN IP4 10.47.16.5|s=SDP Seminar|i=A Seminar on the session description protocol|u=http://www.example.com/seminars/sdp.pdf|\
e=j.doe@example.com (Jane Doe)|c=IN IP4 224.2.17.12/127|t=2873397496 2873404696|a=recvonly|m=audio 49170 RTP/AVP 0|m=video 51372 RTP/AVP 99|a=rtpmap:99 h263-1998/90000|
v=0|o=mixer 1 1 IN IP4 192.0.2.10|s=-|c=IN IP4 192.0.2.10|t=0 0|m=audio 40000 RTP/AVP 0|a=sendonly|m=video 0 RTP/AVP 99|
> v=0|o=alice 2890844526 2890844526 IN IP4 host.anywhere.com|s=|c=IN IP4 host.anywhere.com|t=0 0|m=audio 49170 RTP/AVP 0|a=rtpmap:0 PCMU/8000|m=video 51372 RTP/AVP 31|\
a=rtpmap:31 H261/90000|m=video 53000 RTP/AVP 32|a=rtpmap:32 MPV/90000|
v=0|o=mixer 1 1 IN IP4 192.0.2.10|s=-|c=IN IP4 192.0.2.10|t=0 0|m=audio 40000 RTP/AVP 0|a=rtpmap:0 PCMU/8000|a=sendrecv|m=video 0 RTP/AVP 31|m=video 0 RTP/AVP 32|
> v=0|o=alice 2890844526 2890844526 IN IP4 host.anywhere.com|s=|c=IN IP4 host.anywhere.com|t=0 0|m=audio 62986 RTP/AVP 0 4 18|a=rtpmap:0 PCMU/8000|a=rtpmap:4 G723/8000|\
a=rtpmap:18 G729/8000|a=inactive|
v=0|o=mixer 1 1 IN IP4 192.0.2.10|s=-|c=IN IP4 192.0.2.10|t=0 0|m=audio 40000 RTP/AVP 0|a=rtpmap:0 PCMU/8000|a=inactive|
> v=0|o=bob 2890844730 2890844731 IN IP4 host.example.com|s=|c=IN IP4 host.example.com|t=0 0|m=audio 65422 RTP/AVP 0|a=rtpmap:0 PCMU/8000|m=video 0 RTP/AVP 31|m=video \
53000 RTP/AVP 32|a=rtpmap:32 MPV/90000|m=audio 51434 RTP/AVP 110|a=rtpmap:110 telephone-events/8000|a=recvonly|
v=0|o=mixer 1 1 IN IP4 192.0.2.10|s=-|c=IN IP4 192.0.2.10|t=0 0|m=audio 40000 RTP/AVP 0|a=rtpmap:0 PCMU/8000|a=sendrecv|m=video 0 RTP/AVP 31|m=video 0 RTP/AVP 32|\
m=audio 0 RTP/AVP 110|
> v=0|m=video 1 RTP/AVP 31|m=audio 1 RTP/AVP 8|a=sendonly|
v=0|o=mixer 1 1 IN IP4 192.0.2.10|s=-|c=IN IP4 192.0.2.10|t=0 0|m=video 0 RTP/AVP 31|m=audio 40000 RTP/AVP 8|a=recvonly|
> v=0|m=video 1 RTP/AVP 31|
no audio
> no offer
v=0|o=mixer 1 1 IN IP4 192.0.2.10|s=-|c=IN IP4 192.0.2.10|t=0 0|m=audio 40000 RTP/AVP 0 8|a=sendrecv|
";

#[test]
fn answers_and_offers(rt: HostRuntime) {
    assert_right(
        &rt,
        "ANSWERS",
        wrong_line(rt.alloc(), &mut Answers, ANSWERS),
    );
}

fn audio_name(offers: bool) -> &'static [u8] {
    if offers { b"audio; " } else { b"no audio; " }
}

/// Adds the content of audio.
fn add_audio(transcript: &mut Transcript, said: Result<bool, NoMemory>) {
    match said {
        Ok(offers) => transcript.add(audio_name(offers)),
        Err(NoMemory) => transcript.fail(),
    }
}

/// Adds the direction, or that there is none.
fn add_direction(transcript: &mut Transcript, said: Result<Option<Direction>, NoMemory>) {
    match said {
        Ok(Some(direction)) => transcript.add(direction_name(direction)),
        Ok(None) => transcript.add(b"no direction"),
        Err(NoMemory) => transcript.fail(),
    }
}

/// Adds the kinds, with `,` before each, and ends the line.
fn add_kinds(transcript: &mut Transcript, said: Result<List<Text>, NoMemory>) {
    match said {
        Ok(kinds) => {
            for kind in kinds.items() {
                transcript.add(b",");
                transcript.add(kind.bytes());
            }
            transcript.add(b"\n");
        }
        Err(NoMemory) => transcript.fail(),
    }
}

/// The media that a body offers.
#[derive(Drop)]
struct Offers;

impl RowRunner for Offers {
    fn run_row(&mut self, transcript: &mut Transcript, asked: &[u8]) {
        let alloc = transcript.alloc;
        let mut body = Transcript::new(alloc);
        body.add_ended(b'|', asked, b"\r\n");
        add_audio(transcript, offers_audio(alloc, body.bytes()));
        add_direction(transcript, direction_in_body(alloc, body.bytes()));
        add_kinds(transcript, kinds_of(alloc, body.bytes()));
    }
}

/// The same by the view of a body.
#[derive(Drop)]
struct OffersSeen;

impl RowRunner for OffersSeen {
    fn run_row(&mut self, transcript: &mut Transcript, asked: &[u8]) {
        let alloc = transcript.alloc;
        let mut body = Transcript::new(alloc);
        body.add_ended(b'|', asked, b"\r\n");
        match view_of(alloc, body.bytes()) {
            Ok(Some(view)) => {
                add_audio(transcript, Ok(view.has_audio()));
                add_direction(transcript, Ok(Some(view.direction)));
                add_kinds(transcript, view.kinds(alloc));
            }
            Ok(None) => transcript.add_line(b"no audio; no direction"),
            Err(NoMemory) => transcript.fail(),
        }
    }
}

/// The example of RFC 4566 §5, the offer and the later offer of RFC 3264 §10.1, the offer of §10.2. A kind is listed once for each of its media; other kinds of RFC 4566 §5.14;
/// audio of port 0 is offered, and `Audio` or a longer word is another kind; a description without audio has the session's direction. Then bodies that are no session descriptions,
/// also where they have an `m=audio` line.
const OFFERS: &[u8] =
    b"> v=0|o=jdoe 2890844526 2890842807 IN IP4 10.47.16.5|s=SDP Seminar|i=A Seminar on the session description protocol|u=http://www.example.com/seminars/sdp.pdf|\
e=j.doe@example.com (Jane Doe)|c=IN IP4 224.2.17.12/127|t=2873397496 2873404696|a=recvonly|m=audio 49170 RTP/AVP 0|m=video 51372 RTP/AVP 99|a=rtpmap:99 h263-1998/90000|
audio; recvonly,audio,video
> v=0|o=alice 2890844526 2890844526 IN IP4 host.anywhere.com|s=|c=IN IP4 host.anywhere.com|t=0 0|m=audio 49170 RTP/AVP 0|a=rtpmap:0 PCMU/8000|m=video 51372 RTP/AVP 31|\
a=rtpmap:31 H261/90000|m=video 53000 RTP/AVP 32|a=rtpmap:32 MPV/90000|
audio; sendrecv,audio,video,video
> v=0|o=bob 2890844730 2890844731 IN IP4 host.example.com|s=|c=IN IP4 host.example.com|t=0 0|m=audio 65422 RTP/AVP 0|a=rtpmap:0 PCMU/8000|m=video 0 RTP/AVP 31|m=video \
53000 RTP/AVP 32|a=rtpmap:32 MPV/90000|m=audio 51434 RTP/AVP 110|a=rtpmap:110 telephone-events/8000|a=recvonly|
audio; sendrecv,audio,video,video,audio
> v=0|o=alice 2890844526 2890844526 IN IP4 host.anywhere.com|s=|c=IN IP4 host.anywhere.com|t=0 0|m=audio 62986 RTP/AVP 0 4 18|a=rtpmap:0 PCMU/8000|a=rtpmap:4 G723/8000|\
a=rtpmap:18 G729/8000|a=inactive|
audio; inactive,audio
> v=0|m=text 1 RTP/AVP 98|m=application 2 udp wb|m=message 3 TCP/MSRP *|m=audio 0 RTP/AVP 0|a=sendonly|
audio; sendonly,text,application,message,audio
> v=0|a=inactive|m=video 1 RTP/AVP 31|a=sendonly|
no audio; inactive,video
> v=0|m=Audio 1 RTP/AVP 0|m=audio2 1 RTP/AVP 0|
no audio; sendrecv,Audio,audio2
> 
no audio; no direction
> v=0|a=sendonly|
no audio; no direction
> m=audio 1 RTP/AVP 0|a=sendonly|
no audio; no direction
> v=0|m=audio 1 RTP/AVP 0|m=video|
no audio; no direction
> v=0|m=audio 1 RTP/AVP 0|a=sendonly
no audio; no direction
";

#[test]
fn bodies_offer(rt: HostRuntime) {
    assert_right(&rt, "OFFERS", wrong_line(rt.alloc(), &mut Offers, OFFERS));
    assert_right(
        &rt,
        "OFFERS by views",
        wrong_line(rt.alloc(), &mut OffersSeen, OFFERS),
    );
}
