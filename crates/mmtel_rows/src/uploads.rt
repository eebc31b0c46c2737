//! Records over HTTP (3GPP TS 24.623 §5; RFC 9110 §9.3 and §15): who may read, put and delete one, what is refused and with which status, and that one is in force exactly where
//! the keeper stored it.

use crate::asserting::assert_right;
use crate::cases::wrong_run;

const UPLOADS: &[u8] =
    br#"~ Bob puts a record twice and reads it; alice and somebody who has no account put it in his name; he puts a text that is no record.
at 0 web|PUT /simservs/2 HTTP/1.1|X-3GPP-Asserted-Identity: "sip:bob@home.example"|Content-Type: application/toml|Content-Length: 38|
x5b636f6d6d756e69636174696f6e2d77616974696e675d0a616374697665203d20747275650a
at 1 web|PUT /simservs/2 HTTP/1.1|X-3GPP-Asserted-Identity: "sip:bob@home.example"|Content-Type: application/toml|Content-Length: 38|
x5b636f6d6d756e69636174696f6e2d77616974696e675d0a616374697665203d20747275650a
at 2 web|GET /simservs/2 HTTP/1.1|X-3GPP-Asserted-Identity: "sip:bob@home.example"|
at 3 web|PUT /simservs/2 HTTP/1.1|X-3GPP-Asserted-Identity: "sip:alice@home.example"|Content-Type: application/toml|Content-Length: 38|
x5b636f6d6d756e69636174696f6e2d77616974696e675d0a616374697665203d20747275650a
at 4 web|PUT /simservs/2 HTTP/1.1|X-3GPP-Asserted-Identity: "sip:eve@other.example"|Content-Type: application/toml|Content-Length: 38|
x5b636f6d6d756e69636174696f6e2d77616974696e675d0a616374697665203d20747275650a
at 5 web|PUT /simservs/2 HTTP/1.1|X-3GPP-Asserted-Identity: "sip:bob@home.example"|Content-Type: application/toml|Content-Length: 23|
x5b636f6d6d756e69636174696f6e2d77616974696e5d0a
~ What each is told.
at 0 web|HTTP/1.1 200 OK|Content-Length: 0|Connection: close|
at 1 web|HTTP/1.1 200 OK|Content-Length: 0|Connection: close|
at 2 web|HTTP/1.1 200 OK|Content-Type: application/toml|Content-Length: 38|Connection: close|
x5b636f6d6d756e69636174696f6e2d77616974696e675d0a616374697665203d20747275650a
at 3 web|HTTP/1.1 403 Forbidden|Content-Length: 0|Connection: close|
at 4 web|HTTP/1.1 403 Forbidden|Content-Length: 0|Connection: close|
at 5 web|HTTP/1.1 409 Conflict|Content-Type: text/plain|Content-Length: 29|Connection: close|
x756e6b6e6f776e20636f6d6d756e69636174696f6e2d77616974696e0a
~ Bob puts a record, the keeper's fourth call, reads it, puts it again, puts another, deletes it and reads it; the operator asks for the rows twice; bob deletes and reads it.
=keeps:4 6 7 8
at 0 web|PUT /simservs/2 HTTP/1.1|X-3GPP-Asserted-Identity: "sip:bob@home.example"|Content-Type: application/toml|Content-Length: 38|
x5b636f6d6d756e69636174696f6e2d77616974696e675d0a616374697665203d20747275650a
at 1 web|GET /simservs/2 HTTP/1.1|X-3GPP-Asserted-Identity: "sip:bob@home.example"|
at 2 web|PUT /simservs/2 HTTP/1.1|X-3GPP-Asserted-Identity: "sip:bob@home.example"|Content-Type: application/toml|Content-Length: 38|
x5b636f6d6d756e69636174696f6e2d77616974696e675d0a616374697665203d20747275650a
at 3 web|PUT /simservs/2 HTTP/1.1|X-3GPP-Asserted-Identity: "sip:bob@home.example"|Content-Type: application/toml|Content-Length: 34|
x5b636f6d6d756e69636174696f6e2d77616974696e675d0a63616c6c73203d20330a
at 4 web|DELETE /simservs/2 HTTP/1.1|X-3GPP-Asserted-Identity: "sip:bob@home.example"|
at 5 web|GET /simservs/2 HTTP/1.1|X-3GPP-Asserted-Identity: "sip:bob@home.example"|
at 6 web|GET /charges HTTP/1.1|X-3GPP-Asserted-Identity: "sip:op@home.example"|
at 7 web|GET /charges HTTP/1.1|X-3GPP-Asserted-Identity: "sip:op@home.example"|
at 8 web|DELETE /simservs/2 HTTP/1.1|X-3GPP-Asserted-Identity: "sip:bob@home.example"|
at 9 web|GET /simservs/2 HTTP/1.1|X-3GPP-Asserted-Identity: "sip:bob@home.example"|
~ Where a call of the keeper fails the reply is 503, and the record that was there is in force.
at 0 web|HTTP/1.1 503 Service Unavailable|Content-Length: 0|Connection: close|
at 1 web|HTTP/1.1 200 OK|Content-Length: 0|Connection: close|
at 2 web|HTTP/1.1 200 OK|Content-Length: 0|Connection: close|
at 3 web|HTTP/1.1 503 Service Unavailable|Content-Length: 0|Connection: close|
at 4 web|HTTP/1.1 503 Service Unavailable|Content-Length: 0|Connection: close|
at 5 web|HTTP/1.1 200 OK|Content-Type: application/toml|Content-Length: 38|Connection: close|
x5b636f6d6d756e69636174696f6e2d77616974696e675d0a616374697665203d20747275650a
at 6 web|HTTP/1.1 503 Service Unavailable|Content-Length: 0|Connection: close|
at 7 web|HTTP/1.1 200 OK|Content-Type: text/csv|Content-Length: 58|Connection: close|
x6b696e642c6163636f756e742c63616c6c2c626567616e2c616e7377657265642c656e6465642c686f6c64732c63617573652c7374617475730a
at 8 web|HTTP/1.1 200 OK|Content-Length: 0|Connection: close|
at 9 web|HTTP/1.1 200 OK|Content-Length: 0|Connection: close|
~ Alice, bob and carol read; bob puts a record and reads it. The keeper holds no record of bob, one of alice of the first version, one of carol of the second, one of nobody.
=record:2 no record;
=record:1 [communication-waiting];active = true;
=record:3 version = 2;[communication-waiting];calls = 4;
=record:9 [communication-waiting];calls = 2;
at 0 web|GET /simservs/1 HTTP/1.1|X-3GPP-Asserted-Identity: "tel:+4930111"|
at 1 web|GET /simservs/2 HTTP/1.1|X-3GPP-Asserted-Identity: "sip:bob@home.example"|
at 2 web|GET /simservs/3 HTTP/1.1|X-3GPP-Asserted-Identity: "sip:carol@home.example"|
at 3 web|PUT /simservs/2 HTTP/1.1|X-3GPP-Asserted-Identity: "sip:bob@home.example"|Content-Type: application/toml|Content-Length: 34|
x5b636f6d6d756e69636174696f6e2d77616974696e675d0a63616c6c73203d20330a
at 4 web|GET /simservs/2 HTTP/1.1|X-3GPP-Asserted-Identity: "sip:bob@home.example"|
~ What the keeper held before is there until another is put, also where it is no record; but one of the first version gave way to one of the second that says the same.
at 0 web|HTTP/1.1 200 OK|Content-Type: application/toml|Content-Length: 429|Connection: close|
x76657273696f6e203d20320a0a5b636f6d6d756e69636174696f6e2d77616974696e675d0a616374697665203d20747275650a63616c6c73203d20320a0a5b6f726967696e6174696e672d6964656e7\
46974792d70726573656e746174696f6e5d0a616374697665203d20747275650a0a5b6f726967696e6174696e672d6964656e746974792d70726573656e746174696f6e2d7265737472696374696f6e5\
d0a616374697665203d2066616c73650a64656661756c742d6265686176696f7572203d202270726573656e746174696f6e2d6e6f742d72657374726963746564220a6d6f6465203d202274656d706f7\
2617279220a0a5b7465726d696e6174696e672d6964656e746974792d70726573656e746174696f6e5d0a616374697665203d20747275650a0a5b7465726d696e6174696e672d6964656e746974792d7\
0726573656e746174696f6e2d7265737472696374696f6e5d0a616374697665203d2066616c73650a64656661756c742d6265686176696f7572203d202270726573656e746174696f6e2d6e6f742d726\
57374726963746564220a6d6f6465203d202274656d706f72617279220a
at 1 web|HTTP/1.1 200 OK|Content-Type: application/toml|Content-Length: 10|Connection: close|
x6e6f207265636f72640a
at 2 web|HTTP/1.1 200 OK|Content-Type: application/toml|Content-Length: 46|Connection: close|
x76657273696f6e203d20320a5b636f6d6d756e69636174696f6e2d77616974696e675d0a63616c6c73203d20340a
at 3 web|HTTP/1.1 200 OK|Content-Length: 0|Connection: close|
at 4 web|HTTP/1.1 200 OK|Content-Type: application/toml|Content-Length: 34|Connection: close|
x5b636f6d6d756e69636174696f6e2d77616974696e675d0a63616c6c73203d20330a
~ Bad heads, and a body that is too large; places, methods and accounts that are not there; others' identities; bodies of another type, and of no record; and what is right.
at 0 web|GET /simservs/2 HTTP/1.1|Host: x
at 1 web|GET /simservs/2 HTTP/1.1|X-3GPP-Asserted-Identity: "sip:bob@home.example"|Transfer-Encoding: chunked|
at 2 web|PUT /simservs/2 HTTP/1.1|X-3GPP-Asserted-Identity: "sip:bob@home.example"|Content-Length: 1|Content-Length: 1|
at 3 web|PUT /simservs/2 HTTP/1.1|Content-Length: 65537|
at 4 web|GET /simservs/02 HTTP/1.1|X-3GPP-Asserted-Identity: "sip:bob@home.example"|
at 5 web|GET / HTTP/1.1|X-3GPP-Asserted-Identity: "sip:bob@home.example"|
at 6 web|PUT /charges HTTP/1.1|X-3GPP-Asserted-Identity: "sip:op@home.example"|
at 7 web|POST /simservs/9 HTTP/1.1|X-3GPP-Asserted-Identity: "sip:bob@home.example"|
at 8 web|GET /simservs/9 HTTP/1.1|X-3GPP-Asserted-Identity: "sip:bob@home.example"|
at 9 web|GET /simservs/2 HTTP/1.1|
at 10 web|GET /charges HTTP/1.1|X-3GPP-Asserted-Identity: "sip:bob@home.example"|
at 11 web|PUT /simservs/2 HTTP/1.1|X-3GPP-Asserted-Identity: "sip:bob@home.example"|Content-Type: text/plain|Content-Length: 38|
x5b636f6d6d756e69636174696f6e2d77616974696e675d0a616374697665203d20747275650a
at 12 web|PUT /simservs/2 HTTP/1.1|X-3GPP-Asserted-Identity: "sip:bob@home.example"|Content-Type: application/toml|Content-Length: 1|
x78
at 13 web|GET /charges HTTP/1.1|X-3GPP-Asserted-Identity: "sip:op@home.example"|
at 14 web|GET /simservs/2 HTTP/1.1|X-3GPP-Asserted-Identity: "sip:bob@home.example"|
~ The first cause that applies is the answer.
at 0 web|HTTP/1.1 400 Bad Request|Content-Length: 0|Connection: close|
at 1 web|HTTP/1.1 400 Bad Request|Content-Length: 0|Connection: close|
at 2 web|HTTP/1.1 400 Bad Request|Content-Length: 0|Connection: close|
at 3 web|HTTP/1.1 413 Payload Too Large|Content-Length: 0|Connection: close|
at 4 web|HTTP/1.1 404 Not Found|Content-Length: 0|Connection: close|
at 5 web|HTTP/1.1 404 Not Found|Content-Length: 0|Connection: close|
at 6 web|HTTP/1.1 405 Method Not Allowed|Allow: GET|Content-Length: 0|Connection: close|
at 7 web|HTTP/1.1 405 Method Not Allowed|Allow: GET, PUT, DELETE|Content-Length: 0|Connection: close|
at 8 web|HTTP/1.1 404 Not Found|Content-Length: 0|Connection: close|
at 9 web|HTTP/1.1 403 Forbidden|Content-Length: 0|Connection: close|
at 10 web|HTTP/1.1 403 Forbidden|Content-Length: 0|Connection: close|
at 11 web|HTTP/1.1 415 Unsupported Media Type|Content-Length: 0|Connection: close|
at 12 web|HTTP/1.1 409 Conflict|Content-Type: text/plain|Content-Length: 9|Connection: close|
x6e6f7420746f6d6c0a
at 13 web|HTTP/1.1 200 OK|Content-Type: text/csv|Content-Length: 58|Connection: close|
x6b696e642c6163636f756e742c63616c6c2c626567616e2c616e7377657265642c656e6465642c686f6c64732c63617573652c7374617475730a
at 14 web|HTTP/1.1 200 OK|Content-Length: 0|Connection: close|
~ What follows a request on its connection is not read.
at 0 web|PUT /simservs/2 HTTP/1.1|X-3GPP-Asserted-Identity: "sip:bob@home.example"|Content-Type: application/toml|Content-Length: 38|
x5b636f6d6d756e69636174696f6e2d77616974696e675d0a616374697665203d20747275650a
x6d6f7265
at 1 web|GET /simservs/2 HTTP/1.1|X-3GPP-Asserted-Identity: "sip:bob@home.example"||GET /simservs/1 HTTP/1.1
~ The replies to the requests.
at 0 web|HTTP/1.1 200 OK|Content-Length: 0|Connection: close|
at 1 web|HTTP/1.1 200 OK|Content-Type: application/toml|Content-Length: 38|Connection: close|
x5b636f6d6d756e69636174696f6e2d77616974696e675d0a616374697665203d20747275650a
"#;

/// The table, for a test of another module too.
pub fn upload_runs() -> &'static [u8] {
    UPLOADS
}

#[test]
fn uploads(rt: HostRuntime) {
    assert_right(&rt, "UPLOADS", wrong_run(rt.alloc(), upload_runs()));
}
