//! Parameters, URIs, their spans and escaped bytes, name-addrs and identities.

use crate::asserting::assert_right;
use mmtel_base::token_text;
use mmtel_lex::params::{params_prefix, text, token};
use mmtel_lex::uris::{host, port};
use mmtel_lex::{
    LexFault, NameAddr, NoMemory, Params, Text, Uri, UriFault, add_params, domain, find_named,
    first_part, is_named, percent_decoded_text, print_name_addr, print_uri, read_name_addr,
    read_params, read_uri, same_identity, split_around, split_user, uri_header, uri_param,
};
use mmtel_test_tables::{RowRunner, Transcript, wrong_line};

fn add_param_parts(transcript: &mut Transcript, params: &Params) {
    for param in params.items() {
        transcript.add_part(b"param", param.name.bytes());
        if let Some(value) = &param.value {
            transcript.add_part(b"value", value.bytes());
        }
    }
}

fn add_user(transcript: &mut Transcript, user: &Option<Text>) {
    if let Some(user) = user {
        transcript.add_part(b"user", user.bytes());
    }
}

fn add_port(transcript: &mut Transcript, port: Option<u16>) {
    if let Some(port) = port {
        transcript.add(b" port");
        transcript.add_spaced_number(u64::from(port));
    }
}

fn add_headers(transcript: &mut Transcript, headers: &[u8]) {
    if !headers.is_empty() {
        transcript.add_part(b"headers", headers);
    }
}

/// Adds the parts of a URI, without those that are absent.
fn add_uri(transcript: &mut Transcript, uri: &Uri) {
    match uri {
        Uri::Sip {
            user,
            host,
            port,
            params,
            headers,
        } => {
            transcript.add(b"sip");
            add_user(transcript, user);
            transcript.add_part(b"host", host.bytes());
            add_port(transcript, *port);
            add_param_parts(transcript, params);
            add_headers(transcript, headers.bytes());
        }
        Uri::Tel { number, params } => {
            transcript.add(b"tel");
            transcript.add_part(b"number", number.bytes());
            add_param_parts(transcript, params);
        }
    }
}

/// The parts of a URI, in which `|` represents LF, and the text that is printed of it; else its fault.
#[derive(Drop)]
struct Uris;

impl RowRunner for Uris {
    fn run_row(&mut self, transcript: &mut Transcript, asked: &[u8]) {
        let mut text = Transcript::new(transcript.alloc);
        text.add_ended(b'|', asked, b"\n");
        match read_uri(transcript.alloc, text.bytes()) {
            Ok(uri) => {
                add_uri(transcript, &uri);
                transcript.add(b"\n");
                transcript.add_text_or_fail(print_uri(transcript.alloc, &uri));
            }
            Err(UriFault::Malformed) => transcript.add_line(b"malformed"),
            Err(UriFault::Scheme) => transcript.add_line(b"another scheme"),
            Err(UriFault::NoMemory) => transcript.fail(),
        }
    }
}

/// The examples of RFC 3261 §19.1.3 and RFC 3966 §3 and §6; then texts that are no URI of the schemes `sip` and `tel`, the first of no bytes. A host has 255 bytes at most.
const URIS: &[u8] = b"> sip:alice@atlanta.com
sip user<alice> host<atlanta.com>
sip:alice@atlanta.com
> sip:alice:secretword@atlanta.com;transport=tcp
sip user<alice:secretword> host<atlanta.com> param<transport> value<tcp>
sip:alice:secretword@atlanta.com;transport=tcp
> sip:alice@atlanta.com?subject=project%20x&priority=urgent
sip user<alice> host<atlanta.com> headers<subject=project%20x&priority=urgent>
sip:alice@atlanta.com?subject=project%20x&priority=urgent
> sip:+1-212-555-1212:1234@gateway.com;user=phone
sip user<+1-212-555-1212:1234> host<gateway.com> param<user> value<phone>
sip:+1-212-555-1212:1234@gateway.com;user=phone
> sip:alice@192.0.2.4
sip user<alice> host<192.0.2.4>
sip:alice@192.0.2.4
> sip:atlanta.com;method=REGISTER?to=alice%40atlanta.com
sip host<atlanta.com> param<method> value<REGISTER> headers<to=alice%40atlanta.com>
sip:atlanta.com;method=REGISTER?to=alice%40atlanta.com
> sip:alice;day=tuesday@atlanta.com
sip user<alice;day=tuesday> host<atlanta.com>
sip:alice;day=tuesday@atlanta.com
> SIP:ALICE@AtlanTa.CoM;Transport=udp
sip user<ALICE> host<AtlanTa.CoM> param<Transport> value<udp>
sip:ALICE@AtlanTa.CoM;Transport=udp
> sip:biloxi.com;lr;method=REGISTER?to=sip:bob%40biloxi.com
sip host<biloxi.com> param<lr> param<method> value<REGISTER> headers<to=sip:bob%40biloxi.com>
sip:biloxi.com;lr;method=REGISTER?to=sip:bob%40biloxi.com
> sip:bob@biloxi.com:05060;x=a
sip user<bob> host<biloxi.com> port 5060 param<x> value<a>
sip:bob@biloxi.com:5060;x=a
> sip:bob@biloxi.com:65535
sip user<bob> host<biloxi.com> port 65535
sip:bob@biloxi.com:65535
> tel:+1-201-555-0123
tel number<+1-201-555-0123>
tel:+1-201-555-0123
> TEL:7042;phone-context=example.com
tel number<7042> param<phone-context> value<example.com>
tel:7042;phone-context=example.com
> tel:863-1234;phone-context=+1-914-555
tel number<863-1234> param<phone-context> value<+1-914-555>
tel:863-1234;phone-context=+1-914-555
> sip:hhhhhhhhhhhhhhhhhhhhhhhhhhhhhhhhhhhhhhhhhhhhhhhhhhhhhhhhhhhhhhhhhhhhhhhhhhhhhhhhhhhhhhhhhhhhhhhhhhhhhhhhhhhhhhhhhhhhhhhhhhhhhhhhhhhhhhhhhhhhhhhhhhhhhhhhhhhhhhhhhh\
hhhhhhhhhhhhhhhhhhhhhhhhhhhhhhhhhhhhhhhhhhhhhhhhhhhhhhhhhhhhhhhhhhhhhhhhhhhhhhhhhhhhhhhhhhhhh
sip host<hhhhhhhhhhhhhhhhhhhhhhhhhhhhhhhhhhhhhhhhhhhhhhhhhhhhhhhhhhhhhhhhhhhhhhhhhhhhhhhhhhhhhhhhhhhhhhhhhhhhhhhhhhhhhhhhhhhhhhhhhhhhhhhhhhhhhhhhhhhhhhhhhhhhhhhhhhhhhhh\
hhhhhhhhhhhhhhhhhhhhhhhhhhhhhhhhhhhhhhhhhhhhhhhhhhhhhhhhhhhhhhhhhhhhhhhhhhhhhhhhhhhhhhhhhhhhhhhh>
sip:hhhhhhhhhhhhhhhhhhhhhhhhhhhhhhhhhhhhhhhhhhhhhhhhhhhhhhhhhhhhhhhhhhhhhhhhhhhhhhhhhhhhhhhhhhhhhhhhhhhhhhhhhhhhhhhhhhhhhhhhhhhhhhhhhhhhhhhhhhhhhhhhhhhhhhhhhhhhhhhhhhhh\
hhhhhhhhhhhhhhhhhhhhhhhhhhhhhhhhhhhhhhhhhhhhhhhhhhhhhhhhhhhhhhhhhhhhhhhhhhhhhhhhhhhhhhhhhhh
> sip:hhhhhhhhhhhhhhhhhhhhhhhhhhhhhhhhhhhhhhhhhhhhhhhhhhhhhhhhhhhhhhhhhhhhhhhhhhhhhhhhhhhhhhhhhhhhhhhhhhhhhhhhhhhhhhhhhhhhhhhhhhhhhhhhhhhhhhhhhhhhhhhhhhhhhhhhhhhhhhhhhh\
hhhhhhhhhhhhhhhhhhhhhhhhhhhhhhhhhhhhhhhhhhhhhhhhhhhhhhhhhhhhhhhhhhhhhhhhhhhhhhhhhhhhhhhhhhhhhh
malformed
> 
malformed
> alice@atlanta.com
malformed
> :alice@atlanta.com
malformed
> 1sip:alice@atlanta.com
malformed
>  sip:alice@atlanta.com
malformed
> sip
malformed
> sip:
malformed
> sip:@atlanta.com
malformed
> sip:alice@
malformed
> sip:alice@bob@atlanta.com
malformed
> sip:alice@atlanta.com;x=\"@\"
malformed
> sip:alice@atlanta.com?to=bob@biloxi.com
malformed
> sip:al ice@atlanta.com
malformed
> sip:atlanta_com
malformed
> sip:atlanta.com:
malformed
> sip:atlanta.com:0
malformed
> sip:atlanta.com:65536
malformed
> sip:atlanta.com;
malformed
> sip:atlanta.com;x=
malformed
> sip:atlanta.com;x=\"y\\\"
malformed
> sip:atlanta.com?
malformed
> tel:+
malformed
> tel:(.)
malformed
> tel:*21
malformed
> sips:alice@atlanta.com?subject=project%20x&priority=urgent
another scheme
> sips:1212@gateway.com
another scheme
> mailto:watson@bell-telephone.com
another scheme
> h323+x.y-z:
another scheme
";

/// A byte that no URI has: a quote, with what it may hide, a space, `<`, `>`, and the bytes next to the visible ones (RFC 3261 §25.1).
const OTHER_BYTES: &[u8] = b"> sip:h;x=\"y\"
malformed
> sip:h;x=\"\"
malformed
> sip:vm@far.example;x=\"\r|Subject: injected\r|Y: \"
malformed
> sip:h;x=\"\r\"
malformed
> sip:h;x=\"|\"
malformed
> sip:h;x=\"a b\"
malformed
> sip:h;x=\"<\"
malformed
> sip:h;x=\"\x7f\"
malformed
> sip:h;x=\"\x80\"
malformed
> sip:h;x=a b
malformed
> sip:h;x=<a
malformed
> sip:h;x=a>
malformed
> sip:h;x=a\r
malformed
> sip:h;x=a|
malformed
> sip:h;x=a\x7f
malformed
> sip:h;x=a\x80
malformed
> sip:h?x=\"y\"
malformed
> sip:h?x=a b
malformed
> sip:h?x=\r|
malformed
> sip:h?x=<
malformed
> sip:h?x=>
malformed
> sip:h?x=\x7f
malformed
> sip:h?x=\x80
malformed
> tel:+49;x=\"y\"
malformed
> tel:+49;x=\"\r|Y: \"
malformed
> tel:+49;x=a b
malformed
> tel:+49;x=a>
malformed
> tel:+49;x=\x80
malformed
";

#[test]
fn reads_and_prints_uris(rt: HostRuntime) {
    assert_right(&rt, "URIS", wrong_line(rt.alloc(), &mut Uris, URIS));
    assert_right(
        &rt,
        "OTHER_BYTES",
        wrong_line(rt.alloc(), &mut Uris, OTHER_BYTES),
    );
}

/// Adds the parts of a name-addr, without those that are absent.
fn add_name_addr(transcript: &mut Transcript, name_addr: &NameAddr) {
    transcript.add(b"name-addr");
    let display = name_addr.display.bytes();
    if !display.is_empty() {
        transcript.add_part(b"display", display);
    }
    transcript.add_part(b"uri", name_addr.uri.bytes());
    add_param_parts(transcript, &name_addr.params);
    transcript.add(b"\n");
}

/// The parts of a name-addr, and the text that is printed of it; else its fault.
#[derive(Drop)]
struct NameAddrs;

impl RowRunner for NameAddrs {
    fn run_row(&mut self, transcript: &mut Transcript, asked: &[u8]) {
        match read_name_addr(transcript.alloc, asked) {
            Ok(name_addr) => {
                add_name_addr(transcript, &name_addr);
                transcript.add_text_or_fail(print_name_addr(transcript.alloc, &name_addr));
            }
            Err(LexFault::Malformed) => transcript.add_line(b"malformed"),
            Err(LexFault::NoMemory) => transcript.fail(),
        }
    }
}

/// The examples of RFC 3261 §20.10, §20.20 and §20.39, without spaces before a `;`; then texts that are malformed as a name-addr, the first of no bytes.
const NAME_ADDRS: &[u8] =
    br#"> "Mr. Watson" <sip:watson@worcester.bell-telephone.com>;q=0.7;expires=3600
name-addr display<"Mr. Watson"> uri<sip:watson@worcester.bell-telephone.com> param<q> value<0.7> param<expires> value<3600>
"Mr. Watson" <sip:watson@worcester.bell-telephone.com>;q=0.7;expires=3600
> "Mr. Watson"<mailto:watson@bell-telephone.com>;q=0.1
name-addr display<"Mr. Watson"> uri<mailto:watson@bell-telephone.com> param<q> value<0.1>
"Mr. Watson" <mailto:watson@bell-telephone.com>;q=0.1
> <sips:bob@192.0.2.4>;expires=60
name-addr uri<sips:bob@192.0.2.4> param<expires> value<60>
<sips:bob@192.0.2.4>;expires=60
> "A. G. Bell" <sip:agb@bell-telephone.com>;tag=a48s
name-addr display<"A. G. Bell"> uri<sip:agb@bell-telephone.com> param<tag> value<a48s>
"A. G. Bell" <sip:agb@bell-telephone.com>;tag=a48s
> sip:+12125551212@server.phone2net.com;tag=887s
name-addr uri<sip:+12125551212@server.phone2net.com> param<tag> value<887s>
<sip:+12125551212@server.phone2net.com>;tag=887s
> Anonymous   <sip:c8oqz84zk7z@privacy.org>;tag=hyh8
name-addr display<Anonymous> uri<sip:c8oqz84zk7z@privacy.org> param<tag> value<hyh8>
Anonymous <sip:c8oqz84zk7z@privacy.org>;tag=hyh8
> The  Operator <sip:operator@cs.columbia.edu;x=1?y=2>;tag=287447
name-addr display<The  Operator> uri<sip:operator@cs.columbia.edu;x=1?y=2> param<tag> value<287447>
The  Operator <sip:operator@cs.columbia.edu;x=1?y=2>;tag=287447
> "" <sip:h>
name-addr display<""> uri<sip:h>
"" <sip:h>
> "a\"<b>" <sip:h>;p=";"
name-addr display<"a\"<b>"> uri<sip:h> param<p> value<";">
"a\"<b>" <sip:h>;p=";"
> 
malformed
> <>
malformed
> <sip:a@b
malformed
> sip:a@b>
malformed
>  <sip:a@b>
malformed
>  Bob <sip:a@b>
malformed
> "Bob <sip:a@b>
malformed
> "Bob" sip:a@b
malformed
> "Bob\" <sip:a@b>
malformed
> Bo,b <sip:a@b>
malformed
> <sip:a@b> ;tag=x
malformed
> <sip:a@b>;tag=
malformed
> <sip:a@b>;tag =x
malformed
> sip:a@b?x=y
malformed
> sip:a@b,sip:c@d
malformed
"#;

#[test]
fn reads_and_prints_name_addrs(rt: HostRuntime) {
    assert_right(
        &rt,
        "NAME_ADDRS",
        wrong_line(rt.alloc(), &mut NameAddrs, NAME_ADDRS),
    );
}

/// Adds the text that is written of parameters.
fn add_written(transcript: &mut Transcript, params: &Params) {
    let mut out = Text::new();
    match add_params(transcript.alloc, &mut out, params.items()) {
        Ok(()) => transcript.add_line(out.bytes()),
        Err(NoMemory) => transcript.fail(),
    }
}

/// The parameters of a text, and the text that is written of them; else their fault.
#[derive(Drop)]
struct ParamsRows;

impl RowRunner for ParamsRows {
    fn run_row(&mut self, transcript: &mut Transcript, asked: &[u8]) {
        match read_params(transcript.alloc, asked) {
            Ok(params) => {
                transcript.add(b"params");
                add_param_parts(transcript, &params);
                transcript.add(b"\n");
                add_written(transcript, &params);
            }
            Err(LexFault::Malformed) => transcript.add_line(b"malformed"),
            Err(LexFault::NoMemory) => transcript.fail(),
        }
    }
}

/// Parameters, and texts that are malformed as such.
const PARAMS: &[u8] = br#"> ;tag=a48s;lr;x="y z"
params param<tag> value<a48s> param<lr> param<x> value<"y z">
;tag=a48s;lr;x="y z"
> a
malformed
> ;
malformed
> ;a=
malformed
> ;a="b
malformed
> ;a;
malformed
> ; a
malformed
"#;

#[test]
fn reads_params(rt: HostRuntime) {
    assert_right(
        &rt,
        "PARAMS",
        wrong_line(rt.alloc(), &mut ParamsRows, PARAMS),
    );
}

/// `y` where two URIs, which a space separates, are of one identity, else `n`, compared both ways; and the domain of the first, or `-`.
#[derive(Drop)]
struct Pairs;

/// The letter where the condition is true, else `n`.
fn letter(is_so: bool) -> u8 {
    if is_so { b'y' } else { b'n' }
}

fn add_identity(transcript: &mut Transcript, a: &Uri, b: &Uri) {
    transcript.add(&[
        letter(same_identity(a, b)),
        letter(same_identity(b, a)),
        b' ',
    ]);
    transcript.add_line(domain(a).unwrap_or(b"-"));
}

/// Adds the result for a URI and for one that is still to be read.
fn add_pair(transcript: &mut Transcript, a: &Uri, second: &[u8]) {
    match read_uri(transcript.alloc, second) {
        Ok(b) => add_identity(transcript, a, &b),
        Err(_) => transcript.fail(),
    }
}

impl RowRunner for Pairs {
    fn run_row(&mut self, transcript: &mut Transcript, asked: &[u8]) {
        let (first, second) = split_around(b' ', asked);
        match read_uri(transcript.alloc, first) {
            Ok(a) => add_pair(transcript, &a, second),
            Err(_) => transcript.fail(),
        }
    }
}

/// Many from RFC 3261 §19.1.4: port, parameters, header part and the case of hosts are ignored, and escapes are not resolved. Of several parameters `user` the first decides.
const PAIRS: &[u8] = br#"> sip:alice@AtlanTa.CoM;Transport=tcp SIP:alice@atlanta.com;transport=TCP
yy AtlanTa.CoM
> sip:carol@chicago.com sip:carol@chicago.com;newparam=5
yy chicago.com
> sip:carol@chicago.com;newparam=5 sip:carol@chicago.com;security=on
yy chicago.com
> sip:biloxi.com;transport=tcp;method=REGISTER?to=sip:bob%40biloxi.com sip:biloxi.com;method=REGISTER;transport=tcp?to=sip:bob%40biloxi.com
yy biloxi.com
> sip:alice@atlanta.com?subject=project%20x&priority=urgent sip:alice@atlanta.com?priority=urgent&subject=project%20x
yy atlanta.com
> sip:bob@biloxi.com sip:bob@biloxi.com:5060
yy biloxi.com
> sip:bob@biloxi.com sip:bob@biloxi.com:6000;transport=tcp
yy biloxi.com
> sip:carol@chicago.com sip:carol@chicago.com?Subject=next%20meeting
yy chicago.com
> tel:+1-201-555-0123 tel:+1(201)555.0123;x=y
yy -
> sip:+12125551212@gateway.com;user=phone tel:+1-212-555-1212
yy gateway.com
> sip:+12125551212@gateway.com:5061;USER=phone?x=y tel:+12125551212;x
yy gateway.com
> sip:+49@h;user=phone;user=ip tel:+49
yy h
> sip:%61lice@atlanta.com sip:alice@atlanta.com
nn atlanta.com
> SIP:ALICE@AtlanTa.CoM;Transport=udp sip:alice@AtlanTa.CoM;Transport=UDP
nn AtlanTa.CoM
> sip:bob@phone21.boxesbybob.com sip:bob@192.0.2.4
nn phone21.boxesbybob.com
> sip:biloxi.com sip:bob@biloxi.com
nn biloxi.com
> tel:+12015550123 tel:12015550123
nn -
> sip:+12125551212@gateway.com;user=Phone tel:+12125551212
nn gateway.com
> sip:+12125551212@gateway.com tel:+12125551212
nn gateway.com
> sip:+1-212-555-1212@gateway.com;user=phone tel:+12125551212
nn gateway.com
> sip:+49@h;user=ip;user=phone tel:+49
nn h
"#;

#[test]
fn compares_identities(rt: HostRuntime) {
    assert_right(&rt, "PAIRS", wrong_line(rt.alloc(), &mut Pairs, PAIRS));
}

/// What each reader of a prefix reads of a text, and the rest, with the numbers of a port; then the text itself, and as a token up to a greatest number.
#[derive(Drop)]
struct Fronts;

/// Adds what was read as a prefix, and the rest, or `-`.
fn add_front(transcript: &mut Transcript, front: Result<(Text, &[u8]), LexFault>) {
    match front {
        Ok((front, rest)) => {
            transcript.add_part(b"front", front.bytes());
            transcript.add_line(rest);
        }
        Err(_) => transcript.add_line(b"-"),
    }
}

fn add_port_front(transcript: &mut Transcript, front: Result<(Option<u16>, &[u8]), LexFault>) {
    match front {
        Ok((number, rest)) => {
            add_port(transcript, number);
            transcript.add_line(rest);
        }
        Err(_) => transcript.add_line(b"-"),
    }
}

fn add_params_front(transcript: &mut Transcript, front: Result<(Params, &[u8]), LexFault>) {
    match front {
        Ok((params, rest)) => {
            add_param_parts(transcript, &params);
            transcript.add_line(rest);
        }
        Err(_) => transcript.add_line(b"-"),
    }
}

impl RowRunner for Fronts {
    fn run_row(&mut self, transcript: &mut Transcript, asked: &[u8]) {
        add_front(transcript, token(transcript.alloc, asked));
        add_front(transcript, text(transcript.alloc, asked));
        add_front(transcript, host(transcript.alloc, asked));
        add_port_front(transcript, port(asked));
        add_params_front(transcript, params_prefix(transcript.alloc, asked));
        transcript.add_text_or_fail(Text::of(transcript.alloc, asked));
        transcript.add_text_or_fail(token_text(transcript.alloc, asked, u64::MAX));
    }
}

/// A token or quoted string, a host, a port and parameters as a prefix (RFC 3261 §25.1).
const FRONTS: &[u8] = br#"> branch="a b" c
 front<branch>="a b" c
 front<branch>="a b" c
 front<branch>="a b" c
branch="a b" c
branch="a b" c
branch="a b" c
branch="a b" c-18446744073709551615
> "a b" c
-
 front<"a b"> c
-
"a b" c
"a b" c
"a b" c
"a b" c-18446744073709551615
> h.example:50;x y
 front<h.example>:50;x y
 front<h.example>:50;x y
 front<h.example>:50;x y
h.example:50;x y
h.example:50;x y
h.example:50;x y
h.example:50;x y-18446744073709551615
> :50;x y
-
-
-
 port 50;x y
:50;x y
:50;x y
:50;x y-18446744073709551615
> ;x y
-
-
-
;x y
 param<x> y
;x y
;x y-18446744073709551615
> :0
-
-
-
-
:0
:0
:0-18446744073709551615
"#;

#[test]
fn reads_fronts(rt: HostRuntime) {
    assert_right(&rt, "FRONTS", wrong_line(rt.alloc(), &mut Fronts, FRONTS));
}

/// Adds a part that was found, or `-`.
fn add_found(transcript: &mut Transcript, name: &[u8], found: Option<&[u8]>) {
    transcript.add_part(name, found.unwrap_or(b"-"));
}

/// Adds the values in a text of a URI, or `broken`, and ends the line.
fn add_decoded(transcript: &mut Transcript, text: &[u8]) {
    match percent_decoded_text(transcript.alloc, text) {
        Ok(Some(decoded)) => transcript.add_part(b"decoded", decoded.bytes()),
        Ok(None) => transcript.add(b" broken"),
        Err(NoMemory) => transcript.fail(),
    }
    transcript.add(b"\n");
}

/// A name and a URI, which a space separates: the URI split after its `@`; its parameter and its header of the name; and what follows the `=` of the header, decoded.
#[derive(Drop)]
struct Places;

impl RowRunner for Places {
    fn run_row(&mut self, transcript: &mut Transcript, asked: &[u8]) {
        let (name, uri) = split_around(b' ', asked);
        let (user, host) = split_user(uri);
        let header = uri_header(uri, name);
        let (_, value) = split_around(b'=', header.unwrap_or(b""));
        transcript.add_part(b"user", user);
        transcript.add_part(b"host", host);
        add_found(transcript, b"param", uri_param(uri, name));
        add_found(transcript, b"header", header);
        add_decoded(transcript, value);
    }
}

/// URIs of RFC 3261 §19.1.3 and §19.1.4, one of RFC 3966 §3 and one of RFC 4458 §3. What precedes the `@` is the user's, and no parameter.
const PLACES: &[u8] = br#"> SUBJECT sips:alice@atlanta.com?subject=project%20x&priority=urgent
 user<sips:alice@> host<atlanta.com?subject=project%20x&priority=urgent> param<-> header<subject=project%20x> decoded<project x>
> to sip:atlanta.com;method=REGISTER?to=alice%40atlanta.com
 user<> host<sip:atlanta.com;method=REGISTER?to=alice%40atlanta.com> param<-> header<to=alice%40atlanta.com> decoded<alice@atlanta.com>
> Method sip:atlanta.com;method=REGISTER?to=alice%40atlanta.com
 user<> host<sip:atlanta.com;method=REGISTER?to=alice%40atlanta.com> param<method=REGISTER> header<-> decoded<>
> day sip:alice;day=tuesday@atlanta.com
 user<sip:alice;day=tuesday@> host<atlanta.com> param<-> header<-> decoded<>
> transport sip:%61lice@atlanta.com;transport=TCP;transport=UDP
 user<sip:%61lice@> host<atlanta.com;transport=TCP;transport=UDP> param<transport=TCP> header<-> decoded<>
> phone-context tel:863-1234;phone-context=+1-914-555
 user<> host<tel:863-1234;phone-context=+1-914-555> param<phone-context=+1-914-555> header<-> decoded<>
> cause sip:voicemail@example.com;target=bob%40example.com;cause=486
 user<sip:voicemail@> host<example.com;target=bob%40example.com;cause=486> param<cause=486> header<-> decoded<>
> y sip:a@h?x=%zz&y=%4
 user<sip:a@> host<h?x=%zz&y=%4> param<-> header<y=%4> broken
"#;

#[test]
fn finds_places(rt: HostRuntime) {
    assert_right(&rt, "PLACES", wrong_line(rt.alloc(), &mut Places, PLACES));
}

/// The decoded value of a text of a URI.
#[derive(Drop)]
struct Escapes;

impl RowRunner for Escapes {
    fn run_row(&mut self, transcript: &mut Transcript, asked: &[u8]) {
        add_decoded(transcript, asked);
    }
}

/// Escaped bytes (RFC 3986 §2.1): digits of either case, and each `%` counts once.
const ESCAPES: &[u8] = br#"> plain
 decoded<plain>
> %61lice%40h
 decoded<alice@h>
> %3b%3B%7e
 decoded<;;~>
> %2541
 decoded<%41>
> a%
 broken
> a%4
 broken
> a%4g
 broken
> %g4
 broken
> %%41
 broken
> %41%
 broken
"#;

#[test]
fn decodes_escapes(rt: HostRuntime) {
    assert_right(
        &rt,
        "ESCAPES",
        wrong_line(rt.alloc(), &mut Escapes, ESCAPES),
    );
}

/// A text split at its first `;`, and the first of its parts that is named `x`.
#[derive(Drop)]
struct Parts;

impl RowRunner for Parts {
    fn run_row(&mut self, transcript: &mut Transcript, asked: &[u8]) {
        let (front, rest) = first_part(b';', asked).unwrap_or((asked, b"none"));
        transcript.add_part(b"first", front);
        transcript.add_part(b"rest", rest);
        add_found(transcript, b"named", find_named(b';', b"x", asked));
        transcript.add(if is_named(b"x", front) {
            b" x\n"
        } else {
            b" -\n"
        });
    }
}

const PARTS: &[u8] = br#"> x=1;X=2
 first<x=1> rest<X=2> named<x=1> x
> xx;X
 first<xx> rest<X> named<X> -
> ;y=x
 first<> rest<y=x> named<-> -
> X=a=b
 first<X=a=b> rest<none> named<X=a=b> x
"#;

#[test]
fn parts_texts(rt: HostRuntime) {
    assert_right(&rt, "PARTS", wrong_line(rt.alloc(), &mut Parts, PARTS));
}
