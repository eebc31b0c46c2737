//! Operations on conferences beside signals, a line each: `create PEER NUMBER WHO` opens a conference, `join ROOM PEER NUMBER WHO` joins one, `adopt ROOM SEAT PEER NUMBER WHO
//! SIDE` moves a leg of a call into one, by the REFER of a participant, `notify ROOM SEAT CODE` notifies a participant of a status, `leave ROOM SEAT` makes one leave, `close
//! ROOM` closes a conference, and `drop COUNT` hands CDRs over.
//!
//! A leg that is handed back is written by its dialog.

ghost use Rattle.std.specs.Prelude.{◌≡◌, true, None, IfSome};
ghost use Rattle.mmtel_leg.specs.Releases.{released_leg};
ghost use Rattle.mmtel_sdp.specs.Offers.{offers_audio};
ghost use Rattle.mmtel_focus.specs.Operations.{has_audio_offer};

use crate::environments::{TestEnvironment, is, number, peer_of, uri, word};
use crate::messages::{Coming, RequestFields, add_place, invite, offer, request};
use crate::step_reports::{TestTraffic, write_emits, write_rows};
use mmtel_base::{List, Text};
use mmtel_charging::{Meter, Row};
use mmtel_compose::ReceivedMessage;
use mmtel_focus::{Joining, RoomFault, Rooms};
use mmtel_leg::{Asked, CalleeLeg, CallerLeg, Dialogue, Ended, Released, Remote, Standing};
use mmtel_sdp::offers_audio;
use mmtel_test_tables::Transcript;
use mmtel_transaction::TKey;
use mmtel_types::{Account, Cause, Moment, Peer, RoomNo};

/// The account of a user, where it has one.
fn account(transcript: &mut Transcript, world: &TestEnvironment, who: &[u8]) -> Option<Account> {
    let mut text = Transcript::new(transcript.alloc);
    text.add(b"sip:");
    text.add(who);
    let uri = uri(transcript, text.bytes());
    drop(text);
    let uri = uri?;
    let found = world.accounts.find(&uri);
    drop(uri);
    found
}

/// Draws the next token.
fn draw(transcript: &mut Transcript, wire: &mut TestTraffic) -> Text {
    let drawn = wire.desk.tokens.draw(transcript.alloc);
    transcript.text_or_fail(drawn)
}

/// A meter is closed, and its row written, or that there is none.
fn write_meter(transcript: &mut Transcript, meter: Option<Meter>, now: Moment) {
    match meter {
        None => transcript.add_line(b"-> no meter"),
        Some(meter) => write_row(transcript, meter.close(now, 0, Cause::Ended)),
    }
}

fn write_row(transcript: &mut Transcript, row: Row) {
    let mut rows = List::new();
    let kept = rows.push(transcript.alloc, row);
    transcript.value_or_fail(kept);
    transcript.add(b"-> ");
    write_rows(transcript, rows.items());
    drop(rows);
}

/// A leg that comes to a conference has no meter.
fn check_meter(transcript: &mut Transcript, meter: Option<Meter>, now: Moment) {
    match meter {
        None => {}
        Some(meter) => {
            transcript.fail();
            drop(meter.close(now, 0, Cause::Ended));
        }
    }
}

fn give_up(transcript: &mut Transcript, leg: Released, now: Moment) {
    let Ended { meter } = leg.leave();
    check_meter(transcript, meter, now);
}

/// Writes a dialog by its identifiers.
fn write_dialog(transcript: &mut Transcript, dialogue: &Dialogue) {
    transcript.add(dialogue.call_id.bytes());
    transcript.add(b" ");
    transcript.add(dialogue.local_tag.bytes());
    transcript.add(b" ");
    transcript.add_line(dialogue.remote_tag.bytes());
}

/// Writes why a leg finds no place, and its dialog.
fn write_back(transcript: &mut Transcript, leg: Released, fault: RoomFault, now: Moment) {
    match fault {
        RoomFault::NoRoom => transcript.add(b"no room: "),
        RoomFault::RoomFull => transcript.add(b"room full: "),
        RoomFault::Gone => transcript.add(b"gone: "),
        RoomFault::NoMemory => transcript.fail(),
    }
    write_dialog(transcript, leg.dialogue());
    give_up(transcript, leg, now);
}

/// The leg of a caller whose INVITE this is, where the server responds with this tag.
fn caller_leg(
    transcript: &mut Transcript,
    invite: &ReceivedMessage,
    tag: Text,
    now: Moment,
) -> Option<CallerLeg<Standing>>
    ensures meter { IfSome result (λ leg. leg.meter ≡ None) }
{
    match CallerLeg::<Standing>::open(transcript.alloc, invite.peer, &invite.message, tag, None) {
        Ok(leg) => Some(leg),
        Err((meter, _)) => {
            transcript.fail();
            check_meter(transcript, meter, now);
            None
        }
    }
}

/// A callee with this tag.
fn remote(transcript: &mut Transcript, peer: u16, number: &[u8]) -> Remote {
    let mut tag = Transcript::new(transcript.alloc);
    tag.add(b"b");
    tag.add(number);
    let mut place = Transcript::new(transcript.alloc);
    add_place(&mut place, b"callee", peer);
    let remote = Remote {
        tag: transcript.copy(tag.bytes()),
        target: transcript.copy(place.bytes()),
        routes: List::new(),
    };
    drop(tag);
    drop(place);
    remote
}

/// The leg of the callee with this tag, to which the server sent this INVITE.
fn callee_leg(
    transcript: &mut Transcript,
    peer: u16,
    invite: &ReceivedMessage,
    number: &[u8],
    now: Moment,
) -> Option<CalleeLeg<Standing>>
    ensures meter { IfSome result (λ leg. leg.meter ≡ None) }
{
    let remote = remote(transcript, peer, number);
    match CalleeLeg::<Asked>::start(transcript.alloc, Peer(peer), &invite.message, None) {
        Ok(leg) => Some(leg.stand(remote)),
        Err((meter, _)) => {
            drop(remote);
            transcript.fail();
            check_meter(transcript, meter, now);
            None
        }
    }
}

/// Whether the INVITE offers audio.
fn has_offer(transcript: &mut Transcript, invite: &ReceivedMessage) -> bool
    ensures { result ≡ true → offers_audio invite.now.parsed.body ≡ true }
{
    match offers_audio(transcript.alloc, invite.message.body()) {
        Ok(offers) => offers,
        Err(_) => {
            transcript.fail();
            false
        }
    }
}

/// Creates a conference for a leg whose INVITE offers audio.
fn open(
    transcript: &mut Transcript,
    world: &TestEnvironment,
    wire: &mut TestTraffic,
    rooms: &mut Rooms,
    key: u64,
    account: Option<Account>,
    leg: CallerLeg<Standing>,
    invite: &ReceivedMessage,
    now: Moment,
)
    requires meter { leg.meter ≡ None }
    requires audio { offers_audio invite.now.parsed.body ≡ true }
{
    let made = rooms.create(
        transcript.alloc,
        leg,
        account,
        TKey(key),
        invite,
        &world.peers,
        &world.accounts,
        now,
    );
    match made {
        Err((leg, fault)) => write_back(transcript, Released::Caller(leg), fault, now),
        Ok((room, emits)) => {
            transcript.add(b"room ");
            transcript.add_number(room.0);
            transcript.add(b"\n");
            write_emits(transcript, wire, emits);
        }
    }
}

/// A leg joins a conference.
fn enter(
    transcript: &mut Transcript,
    world: &TestEnvironment,
    wire: &mut TestTraffic,
    rooms: &mut Rooms,
    room: RoomNo,
    account: Option<Account>,
    leg: Released,
    how: Joining<'_>,
    now: Moment,
)
    requires meter { (released_leg leg).meter ≡ None }
    requires audio { has_audio_offer how ≡ true }
{
    let entered = rooms.adopt(
        transcript.alloc,
        room,
        leg,
        account,
        how,
        &world.peers,
        &world.accounts,
        &mut wire.desk.tokens,
        now,
    );
    match entered {
        Err((leg, fault)) => write_back(transcript, leg, fault, now),
        Ok(emits) => write_emits(transcript, wire, emits),
    }
}

/// A caller's leg comes by this INVITE, and creates a conference where none is named.
fn come(
    transcript: &mut Transcript,
    world: &TestEnvironment,
    wire: &mut TestTraffic,
    rooms: &mut Rooms,
    room: Option<RoomNo>,
    key: u64,
    account: Option<Account>,
    invite: &ReceivedMessage,
    now: Moment,
) {
    if !has_offer(transcript, invite) {
        return transcript.fail();
    }
    let tag = draw(transcript, wire);
    let Some(leg) = caller_leg(transcript, invite, tag, now) else {
        return;
    };
    match room {
        None => open(
            transcript, world, wire, rooms, key, account, leg, invite, now,
        ),
        Some(room) => {
            let how = Joining::Invited {
                key: TKey(key),
                invite,
            };
            enter(
                transcript,
                world,
                wire,
                rooms,
                room,
                account,
                Released::Caller(leg),
                how,
                now,
            );
        }
    }
}

/// A user comes by an INVITE with audio, to the factory URI or to a conference.
fn invited(
    transcript: &mut Transcript,
    world: &TestEnvironment,
    wire: &mut TestTraffic,
    rooms: &mut Rooms,
    room: Option<RoomNo>,
    whom: &[u8],
    now: Moment,
    words: &[u8],
) {
    let (peer, rest) = word(words);
    let (call, who) = word(rest);
    let key = wire.open();
    let coming = Coming {
        peer: peer_of(peer),
        key,
        name: b"",
        tag: call,
        call,
        who,
        whom,
        asserts: false,
    };
    let invite = invite(transcript, coming, offer(b"audio"));
    let account = account(transcript, world, who);
    come(
        transcript, world, wire, rooms, room, key, account, &invite, now,
    );
    drop(invite);
}

/// An INVITE to the factory URI.
fn create(
    transcript: &mut Transcript,
    world: &TestEnvironment,
    wire: &mut TestTraffic,
    rooms: &mut Rooms,
    now: Moment,
    words: &[u8],
) {
    invited(
        transcript,
        world,
        wire,
        rooms,
        None,
        b"sip:conf@home.example",
        now,
        words,
    );
}

/// An INVITE to a conference.
fn join(
    transcript: &mut Transcript,
    world: &TestEnvironment,
    wire: &mut TestTraffic,
    rooms: &mut Rooms,
    now: Moment,
    words: &[u8],
) {
    let (room, rest) = word(words);
    let mut uri = Transcript::new(transcript.alloc);
    uri.add(b"sip:room-");
    uri.add(room);
    uri.add(b"@127.0.0.1:5060");
    let room = RoomNo(number(transcript, room));
    invited(
        transcript,
        world,
        wire,
        rooms,
        Some(room),
        uri.bytes(),
        now,
        rest,
    );
    drop(uri);
}

/// The leg of a caller, out of a call that this INVITE opened.
fn leg_by_invite(
    transcript: &mut Transcript,
    invite: &ReceivedMessage,
    tag: Text,
    now: Moment,
) -> Option<Released>
    ensures meter { IfSome result (λ leg. (released_leg leg).meter ≡ None) }
{
    let leg = caller_leg(transcript, invite, tag, now)?;
    Some(Released::Caller(leg))
}

/// The leg of a caller, out of a call that an INVITE of this number opened.
fn leg_of_caller(
    transcript: &mut Transcript,
    peer: u16,
    call: &[u8],
    who: &[u8],
    tag: Text,
    now: Moment,
) -> Option<Released>
    ensures meter { IfSome result (λ leg. (released_leg leg).meter ≡ None) }
{
    let coming = Coming {
        peer,
        key: 9,
        name: b"",
        tag: call,
        call,
        who,
        whom: b"sip:bob@home.example",
        asserts: false,
    };
    let invite = invite(transcript, coming, b"");
    let leg = leg_by_invite(transcript, &invite, tag, now);
    drop(invite);
    leg
}

/// An INVITE of the server's own with this number, to this user.
fn own_invite(
    transcript: &mut Transcript,
    peer: u16,
    call: &[u8],
    who: &[u8],
    tag: &Text,
) -> ReceivedMessage {
    let mut from = Transcript::new(transcript.alloc);
    from.add(b"<sip:alice@home.example>;tag=");
    from.add(tag.bytes());
    let mut to = Transcript::new(transcript.alloc);
    to.add(b"<sip:");
    to.add(who);
    to.add(b">");
    let mut call_id = Transcript::new(transcript.alloc);
    call_id.add(b"k");
    call_id.add(call);
    let saying = RequestFields {
        peer,
        key: 0,
        from: from.bytes(),
        to: to.bytes(),
        call_id: call_id.bytes(),
        user: b"server",
    };
    let invite = request(transcript, saying, b"INVITE", b"1", b"");
    drop(from);
    drop(to);
    drop(call_id);
    invite
}

/// The leg of a callee, out of a call, that got this INVITE of the server's own.
fn leg_by_own_invite(
    transcript: &mut Transcript,
    peer: u16,
    invite: &ReceivedMessage,
    call: &[u8],
    now: Moment,
) -> Option<Released>
    ensures meter { IfSome result (λ leg. (released_leg leg).meter ≡ None) }
{
    let leg = callee_leg(transcript, peer, invite, call, now)?;
    Some(Released::Callee(leg))
}

/// The leg of a callee, out of a call, that got an INVITE of the server's own of this number.
fn leg_of_callee(
    transcript: &mut Transcript,
    peer: u16,
    call: &[u8],
    who: &[u8],
    tag: Text,
    now: Moment,
) -> Option<Released>
    ensures meter { IfSome result (λ leg. (released_leg leg).meter ≡ None) }
{
    let invite = own_invite(transcript, peer, call, who, &tag);
    drop(tag);
    let leg = leg_by_own_invite(transcript, peer, &invite, call, now);
    drop(invite);
    leg
}

/// The leg of this user, out of a call, on this side of it.
fn leg_of(
    transcript: &mut Transcript,
    wire: &mut TestTraffic,
    peer: u16,
    call: &[u8],
    words: &[u8],
    now: Moment,
) -> Option<Released>
    ensures meter { IfSome result (λ leg. (released_leg leg).meter ≡ None) }
{
    let (who, side) = word(words);
    let tag = draw(transcript, wire);
    if is(side, b"caller") {
        leg_of_caller(transcript, peer, call, who, tag, now)
    } else {
        leg_of_callee(transcript, peer, call, who, tag, now)
    }
}

/// A leg is taken out of a call.
fn adopt(
    transcript: &mut Transcript,
    world: &TestEnvironment,
    wire: &mut TestTraffic,
    rooms: &mut Rooms,
    now: Moment,
    words: &[u8],
) {
    let (room, rest) = word(words);
    let (by, rest) = word(rest);
    let (peer, rest) = word(rest);
    let (call, rest) = word(rest);
    let (who, _) = word(rest);
    let room = RoomNo(number(transcript, room));
    let by = number(transcript, by);
    let account = account(transcript, world, who);
    if let Some(leg) = leg_of(transcript, wire, peer_of(peer), call, rest, now) {
        let how = Joining::Referred { by };
        enter(transcript, world, wire, rooms, room, account, leg, how, now);
    }
}

fn notify(
    transcript: &mut Transcript,
    world: &TestEnvironment,
    wire: &mut TestTraffic,
    rooms: &mut Rooms,
    words: &[u8],
) {
    let (room, rest) = word(words);
    let (seat, code) = word(rest);
    let room = RoomNo(number(transcript, room));
    let seat = number(transcript, seat);
    let code = number(transcript, code);
    let code = if code < 700 { code as u16 } else { 0 };
    let notified = rooms.notify(
        transcript.alloc,
        room,
        seat,
        code,
        &world.peers,
        &world.accounts,
        &mut wire.desk.tokens,
    );
    if let Some(emits) = transcript.value_or_fail(notified) {
        write_emits(transcript, wire, emits);
    }
}

fn leave(transcript: &mut Transcript, rooms: &mut Rooms, now: Moment, words: &[u8]) {
    let (room, seat) = word(words);
    let room = RoomNo(number(transcript, room));
    let seat = number(transcript, seat);
    match rooms.leave(room, seat, now) {
        None => transcript.add_line(b"-> none"),
        Some(row) => write_row(transcript, row),
    }
}

/// Writes the meters of the participants of a conference that was closed.
fn write_ended(transcript: &mut Transcript, ended: Vec<Ended>, now: Moment) {
    let mut rest = ended;
    for _ in 0..100 {
        if rest.is_empty() {
            break;
        }
        let Ended { meter } = rest.remove(0);
        write_meter(transcript, meter, now);
    }
    end_all(rest, now);
}

/// Consumes what remains.
fn end_all(ended: Vec<Ended>, now: Moment) {
    let mut rest = ended;
    while let Some(ended) = rest.pop() {
        let Ended { meter } = ended;
        match meter {
            None => {}
            Some(meter) => drop(meter.close(now, 0, Cause::Ended)),
        }
    }
    rest.destroy_empty();
}

fn close(transcript: &mut Transcript, rooms: &mut Rooms, now: Moment, words: &[u8]) {
    let room = RoomNo(number(transcript, words));
    match rooms.close(transcript.alloc, room) {
        Ok(ended) => write_ended(transcript, ended, now),
        Err(_) => transcript.fail(),
    }
}

fn drop_rows(transcript: &mut Transcript, rooms: &mut Rooms, words: &[u8]) {
    let count = number(transcript, words);
    let waiting = rooms.rows_waiting().len();
    if count <= waiting as u64 {
        rooms.drop_rows(count as usize);
    } else {
        transcript.fail();
    }
}

/// Does the operation of the words, where they are one.
pub fn is_done(
    transcript: &mut Transcript,
    world: &TestEnvironment,
    wire: &mut TestTraffic,
    rooms: &mut Rooms,
    now: Moment,
    words: &[u8],
) -> bool {
    let (kind, rest) = word(words);
    if is(kind, b"create") {
        create(transcript, world, wire, rooms, now, rest);
    } else if is(kind, b"join") {
        join(transcript, world, wire, rooms, now, rest);
    } else if is(kind, b"adopt") {
        adopt(transcript, world, wire, rooms, now, rest);
    } else if is(kind, b"notify") {
        notify(transcript, world, wire, rooms, rest);
    } else if is(kind, b"leave") {
        leave(transcript, rooms, now, rest);
    } else if is(kind, b"close") {
        close(transcript, rooms, now, rest);
    } else if is(kind, b"drop") {
        drop_rows(transcript, rooms, rest);
    } else {
        return false;
    }
    true
}
