//! Participants' meters.
ghost use Rattle.std.specs.Prelude.{◌≡◌};
ghost use Rattle.mmtel_participants.specs.Participants.{leg_with_meter, meter_of};

use mmtel_charging::{Kind, Meter};
use mmtel_leg::LegOf;
use mmtel_types::{Account, CallNo, Cause, Moment, RoomNo};

/// Closes a meter, and discards its CDR.
pub fn give_up_meter(meter: Option<Meter>, at: Moment) {
    match meter {
        None => {}
        Some(meter) => drop(meter.close(at, 0, Cause::Ended)),
    }
}

/// The meter of a participant, which begins, and is answered, at the moment when the participant is connected.
pub fn meter_of(room: RoomNo, now: Moment, account: Option<Account>) -> Option<Meter>
    ensures meter { result ≡ meter_of room now account }
{
    match account {
        None => None,
        Some(account) => {
            let mut meter = Meter::start(Kind::Participant, account, CallNo(room.0), now);
            meter.answered(now);
            Some(meter)
        }
    }
}

/// Puts this meter into a leg; one that ran there closes without a CDR.
pub fn leg_with_meter<P, S>(leg: LegOf<P, S>, meter: Option<Meter>, now: Moment) -> LegOf<P, S>
    ensures leg { result ≡ leg_with_meter meter leg }
{
    let mut leg = leg;
    give_up_meter(leg.swap_meter(meter), now);
    leg
}
