//! What a PRACK acknowledges, and the reliable responses of a call.

use crate::asserting::assert_right;
use mmtel_base::number_up_to;
use mmtel_lex::LexFault;
use mmtel_reliable::{Acks, Rack, read_rack};
use mmtel_test_tables::{RowRunner, Transcript, wrong_line};
use std::alloc::Global;

/// Writes a value that was read, or `malformed`.
fn write_rack(transcript: &mut Transcript, rack: Result<Rack, LexFault>) {
    match rack {
        Ok(rack) => {
            transcript.add_number(u64::from(rack.answer));
            transcript.add_spaced_number(u64::from(rack.cseq));
            transcript.add_if(rack.invite, b" INVITE\n", b" -\n");
        }
        Err(_) => transcript.add_line(b"malformed"),
    }
}

/// Writes a number, or `-`.
fn write_number(transcript: &mut Transcript, number: Option<u32>) {
    match number {
        Some(number) => transcript.add_number(u64::from(number)),
        None => transcript.add(b"-"),
    }
    transcript.add(b"\n");
}

fn number(digits: &[u8]) -> u32 {
    u32::try_from(number_up_to(u64::from(u32::MAX), digits).unwrap_or(0)).unwrap_or(0)
}

/// The reliable responses after the rows so far.
#[derive(Drop)]
struct Answers {
    acks: Acks,
}

impl Answers {
    /// Relays so many responses, from the callee's number on, and writes the last own number.
    fn relay_all(&mut self, transcript: &mut Transcript, first: u32) {
        let mut last = None;
        for k in 0..17 {
            last = self.acks.relay(first.saturating_add(k)).or(last);
        }
        write_number(transcript, last);
    }

    fn acked(&mut self, transcript: &mut Transcript, rack: &[u8]) {
        if let Some(rack) = transcript.value_or_fail(read_rack(rack)) {
            write_number(transcript, self.acks.acked(&rack));
        }
    }
}

/// `=` reads a RAck value. `+` with the callee's number relays a response, `*` 17 of them from that number on, `!` with a RAck value receives a PRACK, `?` with an own number
/// writes whether its response waits, and anything else leaves the attempt.
impl RowRunner for Answers {
    fn run_row(&mut self, transcript: &mut Transcript, asked: &[u8]) {
        match asked {
            [b'=', rack @ ..] => write_rack(transcript, read_rack(rack)),
            [b'+', rseq @ ..] => write_number(transcript, self.acks.relay(number(rseq))),
            [b'*', first @ ..] => self.relay_all(transcript, number(first)),
            [b'!', rack @ ..] => self.acked(transcript, rack),
            [b'?', own @ ..] => {
                let waits = self.acks.is_waiting(u64::from(number(own)));
                transcript.add_if(waits, b"waits\n", b"-\n");
            }
            _ => self.acks.next_attempt(),
        }
    }
}

/// RFC 3262 §7.2: `RAck: 776656 1 INVITE`; response-num and CSeq-num are `1*DIGIT`, a method is a token, whose case counts (RFC 3261 §7.1).
const RACKS: &[u8] = b"> =776656 1 INVITE
776656 1 INVITE
> =1 7 INVITE
1 7 INVITE
> =0900 001 INVITE
900 1 INVITE
> =0 0 INVITE
0 0 INVITE
> =2147483647 2147483647 INVITE
2147483647 2147483647 INVITE
> =2147483648 1 INVITE
malformed
> =1 2147483648 INVITE
malformed
> =1 7 PRACK
1 7 -
> =1 7 invite
1 7 -
> =1 7 INVITES
1 7 -
> =
malformed
> =1
malformed
> =1 7
malformed
> =1 7 
malformed
> =1  7 INVITE
malformed
> =1 7  INVITE
malformed
> = 1 7 INVITE
malformed
> =1 7 INVITE 
malformed
> =1 7 IN VITE
malformed
> =-1 7 INVITE
malformed
> =1 +7 INVITE
malformed
> =1 7 INVITE,INVITE
malformed
> =a 7 INVITE
malformed
> =1 a INVITE
malformed
";

/// RFC 3262 §3 and §4, for an INVITE of CSeq 7: the first response has any number, each further one the next; a PRACK acknowledges the one that has waited longest, and each once;
/// the next callee counts by itself, and the caller receives one sequence of numbers. Seventeen are one more than may wait, and once a PRACK was received the one that was held
/// back is accepted.
const ANSWERS: &[u8] = b"> ?1
-
> !1 7 INVITE
-
> +900
1
> ?1
waits
> ?2
-
> +900
-
> +902
-
> +901
2
> !2 7 INVITE
-
> !1 8 INVITE
-
> !1 7 UPDATE
-
> !900 7 INVITE
-
> !1 7 INVITE
900
> ?1
-
> ?2
waits
> !1 7 INVITE
-
> !2 7 INVITE
901
> !3 7 INVITE
-
> +902
3
> next
> ?3
-
> !3 7 INVITE
-
> +5
4
> +903
-
> !4 7 INVITE
5
> next
> *100
20
> +116
-
> !6 7 INVITE
-
> !5 7 INVITE
100
> +117
-
> +116
21
> !6 7 INVITE
101
> next
> +2147483647
22
> +2147483648
23
> next
> +4294967295
24
> +0
-
> +4294967295
-
";

/// The number of the first line of the table, from 1, that differs from the actual one; 0 where none does.
fn wrong_answers(alloc: Global, table: &[u8]) -> usize {
    match Acks::new(alloc, 7) {
        Ok(acks) => wrong_line(alloc, &mut Answers { acks }, table),
        Err(_) => 1,
    }
}

#[test]
fn racks_and_answers(rt: HostRuntime) {
    assert_right(&rt, "RACKS", wrong_answers(rt.alloc(), RACKS));
    assert_right(&rt, "ANSWERS", wrong_answers(rt.alloc(), ANSWERS));
}
