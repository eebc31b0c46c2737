//! Meters.
ghost use Rattle.std.specs.Prelude.{◌≡◌, Some, None};
ghost use Rattle.mmtel_charging.specs.Meters.{row_of_meter};

use crate::rows::{Kind, Row};
use mmtel_types::{Account, CallNo, Cause, Moment};
use std::marker::Model;

/// An open charging record: it runs while an account has a part in a call, from when that part begins until its row is made.
///
/// A meter must be spent: it is not `Drop`, so a program that loses one does not compile, and `close` alone takes one. Its value in contracts is what it has recorded.
#[derive(Debug)]
pub struct Meter {
    kind: Kind,
    account: Account,
    call: CallNo,
    began: Moment,
    answered: Option<Moment>,
}

impl Model for Meter {
    ghost use Rattle.mmtel_charging.specs.Meters.{MeterView};

    ghost Value = { MeterView };

    ghost view = { λ meter. record { kind = meter.kind; account = meter.account; call = meter.call; began = meter.began; answered = meter.answered } };
}

impl Meter {
    /// Begins an account's part in a call, not answered yet. A participant's meter has the number of the conference as its call.
    pub fn start(kind: Kind, account: Account, call: CallNo, now: Moment) -> Meter
        ensures noted { result ≡ record { kind = kind; account = account; call = call; began = now; answered = None } }
    {
        Meter {
            kind,
            account,
            call,
            began: now,
            answered: None,
        }
    }

    /// The kind of part for which it runs.
    pub fn kind(&self) -> Kind
        ensures kind { result ≡ self.now.kind }
    {
        self.kind
    }

    /// Records the moment at which the call was answered, in place of any that was recorded before.
    pub fn answered(&mut self, now: Moment)
        ensures noted { self.new ≡ record self.old { answered = Some now } }
    {
        self.answered = Some(now);
    }

    /// Ends the account's part in the call, and returns its row.
    pub fn close(self, now: Moment, holds: u32, cause: Cause) -> Row
        ensures row { result ≡ row_of_meter self now holds cause }
    {
        let Meter {
            kind,
            account,
            call,
            began,
            answered,
        } = self;
        Row {
            kind,
            account,
            call,
            began,
            answered,
            ended: now,
            holds,
            cause,
        }
    }
}
