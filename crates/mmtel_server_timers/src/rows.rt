//! The CDRs that wait at the end of a step (TS 32.260 §5).
ghost use Rattle.std.specs.Prelude.{◌≡◌, IfOk, OnErr};
ghost use Rattle.mmtel_server_timers.specs.Handover.{HandoverAborted, HandoverFaults, HandsOver, remaining_rows};

use mmtel_base::{List, NoMemory};
use mmtel_charging::Row;
use mmtel_keeper::{KeepFault, Keeper};
use std::alloc::Global;

/// Hands the CDRs that wait to the keeper, which accepts all of them or none. True where none waits from then on. Where none waited the keeper is not called.
///
/// # Errors
///
/// Out of memory only; all of them still wait then.
pub fn hand_rows<K: Keeper>(
    alloc: Global,
    waiting: &mut List<Row>,
    keeper: &mut K,
) -> Result<bool, NoMemory>
    ensures remaining { IfOk result (λ took. waiting.new ≡ remaining_rows took waiting.old) }
    ensures handed { IfOk result (λ took. HandsOver took waiting.old (K.contents keeper.old) (K.contents keeper.new) (K.calls keeper.old) (K.calls keeper.new)) }
    ensures counted { IfOk result (λ took. HandoverFaults took (K.faults keeper.old) (K.faults keeper.new)) }
    ensures aborted { OnErr result (HandoverAborted (K.contents keeper.old) (K.contents keeper.new) (K.calls keeper.old)
        (K.calls keeper.new) (K.faults keeper.old) (K.faults keeper.new)) }
    ensures kept { OnErr result (waiting.new ≡ waiting.old) }
{
    let count = waiting.items().len();
    if count == 0 {
        return Ok(true);
    }
    match keeper.add_rows(alloc, waiting.items()) {
        Ok(()) => {
            *waiting = List::new();
            Ok(true)
        }
        Err(KeepFault::Failed) => Ok(false),
        Err(KeepFault::NoMemory) => Err(NoMemory),
    }
}
