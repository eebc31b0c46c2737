//! The maximum number of live server transactions, and tokens.

use crate::asserting::assert_right;
use crate::transactions::calls::wrong_call;
use mmtel_test_tables::Transcript;
use mmtel_transaction::Tokens;
use std::alloc::Global;

/// 16,384 server transactions are live at most: the 16,385th new request is handed back, once and again, while retransmissions are received and requests are sent; where one ended
/// there is space for one.
const FULL: &[u8] = b"many 16384> opened 16384
hear 1 0 OPTIONS/16384> full
hear 1 0 OPTIONS/16384> full
ask 1 0 OPTIONS/16384> asked 16384
hear 1 0 200/OPTIONS/16384> answer 16384
reply 5 0 200/OPTIONS/a> done
numbered 5> repeat 1 SIP/2.0 200 Status
hear 1 0 OPTIONS/16384> full
due 31999> nothing
due 32000> over 5 32000
hear 1 32000 OPTIONS/16384> fresh 16385
hear 1 32000 OPTIONS/16385> full
";

/// Writes the next token.
fn draw(transcript: &mut Transcript, tokens: &mut Tokens) {
    let token = tokens.draw(transcript.alloc);
    transcript.add_text_or_fail(token);
}

/// Tokens are numbered from 1.
fn wrong_token(alloc: Global) -> usize {
    let mut transcript = Transcript::new(alloc);
    let token = transcript.copy(b"0123456789abcdef");
    let mut tokens = Tokens::new(token);
    draw(&mut transcript, &mut tokens);
    draw(&mut transcript, &mut tokens);
    draw(&mut transcript, &mut tokens);
    transcript.wrong_line(b"0123456789abcdef-1\n0123456789abcdef-2\n0123456789abcdef-3\n")
}

#[test]
fn limit_and_tokens(rt: HostRuntime) {
    assert_right(&rt, "FULL", wrong_call(rt.alloc(), FULL));
    assert_right(&rt, "token", wrong_token(rt.alloc()));
}
