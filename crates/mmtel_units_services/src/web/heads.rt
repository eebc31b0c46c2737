//! Whether bytes are a whole request (RFC 9112 §2 and §6).

use crate::asserting::assert_right;
use crate::web::pages::{add_many, add_shown, meant};
use mmtel_http::{Whole, whole};
use mmtel_test_tables::{RowRunner, Transcript, wrong_line};
use std::alloc::Global;

/// Evaluates `whole`.
#[derive(Drop)]
struct Wholes;

fn add_whole(transcript: &mut Transcript, bytes: &[u8]) {
    match whole(bytes) {
        Whole::More => transcript.add(b"more"),
        Whole::Bad => transcript.add(b"bad"),
        Whole::Large => transcript.add(b"large"),
        Whole::Done { len } => {
            transcript.add(b"done ");
            add_shown(transcript, bytes.get(..len).unwrap_or(b"more than all"));
        }
    }
    transcript.add(b"\n");
}

impl RowRunner for Wholes {
    fn run_row(&mut self, transcript: &mut Transcript, asked: &[u8]) {
        let bytes = meant(transcript, asked);
        add_whole(transcript, bytes.whole());
        drop(bytes);
    }
}

const WHOLES: &[u8] = b"> 
more
> GET
more
> GET / HTTP/1.1%~
more
> %~~
more
> GET / HTTP/1.1%~Content-Length: 5%~%~abcd
more
> GET / HTTP/1.1%~Content-Length: 5%~%~abcde
done GET / HTTP/1.1%~Content-Length: 5%~%~abcde
> GET / HTTP/1.1%~Content-Length: 5%~%~abcdefg
done GET / HTTP/1.1%~Content-Length: 5%~%~abcde
> GET / HTTP/1.1%~%~
done GET / HTTP/1.1%~%~
> GET / HTTP/1.1~~
done GET / HTTP/1.1~~
> GET / HTTP/1.1~%~rest
done GET / HTTP/1.1~%~
> ~%~GET / HTTP/1.1%~%~
done ~%~GET / HTTP/1.1%~%~
> GET%~%~
bad
> GET / HTTP/1.1%~ x: y%~%~
bad
> %%~%~
bad
> GET / HTTP/1.1%~Transfer-Encoding: gzip%~%~
bad
> GET / HTTP/1.1%~transfer-encoding:%~%~
bad
> GET / HTTP/1.1%~Content-Length: 1%~content-length: 1%~%~a
bad
> GET / HTTP/1.1%~Content-Length: -1%~%~
bad
> GET / HTTP/1.1%~Content-Length:%~%~
bad
> GET / HTTP/1.1%~Content-Length: 1,1%~%~
bad
> GET / HTTP/1.1%~Content-Length: 65537%~%~
large
> GET / HTTP/1.1%~Content-Length: 18446744073709551616%~%~
large
> GET / HTTP/1.1%~Content-Length: 65536%~%~
more
> GET / HTTP/1.1%~Content-Length: 00%~%~
done GET / HTTP/1.1%~Content-Length: 00%~%~
";

/// Adds the result of `whole` for bytes; of a whole request its length.
fn add_length(transcript: &mut Transcript, bytes: &Transcript) {
    transcript.fail_unless(!bytes.has_failed());
    match whole(bytes.bytes()) {
        Whole::More => transcript.add(b"more\n"),
        Whole::Bad => transcript.add(b"bad\n"),
        Whole::Large => transcript.add(b"large\n"),
        Whole::Done { len } => {
            transcript.add_number(len as u64);
            transcript.add(b"\n");
        }
    }
}

/// Adds the result of `whole` for a request with one header field of so many bytes, without its end where it is not ended.
fn add_long(transcript: &mut Transcript, size: usize, end: &[u8]) {
    let mut head = Transcript::new(transcript.alloc);
    head.add(b"GET / HTTP/1.1\r\nX: ");
    add_many(&mut head, b"a", size);
    head.add(end);
    add_length(transcript, &head);
    drop(head);
}

/// Adds the result of `whole` for a request of these lines, with so many copies of a piece and this end.
fn add_wide(transcript: &mut Transcript, lines: &[u8], piece: &[u8], count: usize, end: &[u8]) {
    let mut text = Transcript::new(transcript.alloc);
    text.add(lines);
    add_many(&mut text, piece, count);
    text.add(end);
    add_length(transcript, &text);
    drop(text);
}

/// A head of 8,192 bytes is accepted and one of 8,193 is not; as many bytes without the end of a head are not enough, or too many.
fn add_heads(transcript: &mut Transcript) {
    let end = b"\r\n\r\n";
    add_long(transcript, 8_169, end);
    add_long(transcript, 8_170, end);
    add_long(transcript, 8_173, b"");
    add_long(transcript, 8_174, b"");
}

/// 64 header fields are accepted and 65 are not.
fn add_headers(transcript: &mut Transcript) {
    let line = b"GET / HTTP/1.1\r\n";
    add_wide(transcript, line, b"A: b\r\n", 64, b"\r\n");
    add_wide(transcript, line, b"A: b\r\n", 65, b"\r\n");
}

/// The largest body is accepted once it is whole.
fn add_bodies(transcript: &mut Transcript) {
    let head = b"GET / HTTP/1.1\r\nContent-Length: 65536\r\n\r\n";
    let piece = b"0123456789abcdef0123456789abcdef0123456789abcdef0123456789abcdef";
    add_wide(transcript, head, piece, 1_023, b"");
    add_wide(transcript, head, piece, 1_024, b"");
}

fn wrong_limit(alloc: Global) -> usize {
    let mut transcript = Transcript::new(alloc);
    add_heads(&mut transcript);
    add_headers(&mut transcript);
    add_bodies(&mut transcript);
    let wrong = transcript.wrong_line(b"8192\nbad\nmore\nbad\n402\nbad\nmore\n65577\n");
    drop(transcript);
    wrong
}

#[test]
fn whole_requests(rt: HostRuntime) {
    assert_right(&rt, "WHOLES", wrong_line(rt.alloc(), &mut Wholes, WHOLES));
    assert_right(&rt, "limit", wrong_limit(rt.alloc()));
}
