//! Passing a server's outputs to a link.
ghost use Rattle.std.specs.Prelude.{◌≡◌, ◌∷◌, [], IsErrOf, OnErr, OnOk};
ghost use Rattle.mmtel_delivery.specs.Delivery.{Delivered, DeliveredAll, IsBoundStill, LostOnlyWhereRose, RoseBy, new_losses};
ghost use Rattle.mmtel_link.specs.declared.links.SendFault.TheVariants as fault;

use mmtel_base::NoMemory;
use mmtel_environment::Offer;
use mmtel_link::{Link, SendFault};
use mmtel_trust::PeerTable;
use std::alloc::Global;

/// What is lost was passed nevertheless; where memory ran out nothing was.
fn lost_or_sent(sent: Result<(), SendFault>) -> Result<(), NoMemory>
    ensures ok { OnOk result (IsErrOf sent fault.NoMemory → ⊥) }
    ensures err { OnErr result (IsErrOf sent fault.NoMemory) }
{
    match sent {
        Ok(()) | Err(SendFault::Failed) => Ok(()),
        Err(SendFault::NoMemory) => Err(NoMemory),
    }
}

/// Passes an output to a link: a datagram with the address of its peer, or a reply on the web connection that was received last.
fn deliver<L: Link>(
    alloc: Global,
    peers: &PeerTable,
    link: &mut L,
    offer: &Offer,
) -> Result<(), NoMemory>
    ensures delivered { OnOk result (Delivered peers.now.known (offer.now ∷ []) (L.output link.old) (L.output link.new)) }
    ensures none { OnErr result (L.output link.new ≡ L.output link.old) }
    ensures lost { LostOnlyWhereRose (L.output link.old) (L.output link.new) (L.delivery_faults link.old) (L.delivery_faults link.new) }
    ensures counted { RoseBy (new_losses (L.output link.old) (L.output link.new)) (L.delivery_faults link.old) (L.delivery_faults link.new) }
    ensures received { L.input link.new ≡ L.input link.old }
    ensures bound { IsBoundStill (L.calls link.old) (L.calls link.new) }
    ensures arrival_faults { L.arrival_faults link.new ≡ L.arrival_faults link.old }
{
    match offer {
        Offer::To { peer, text, .. } => match peers.addr(*peer) {
            Some(to) => lost_or_sent(link.send(alloc, to, text.bytes())),
            None => Ok(()),
        },
        Offer::Web { text, .. } => lost_or_sent(link.web_reply(alloc, text.bytes())),
    }
}

/// Passes outputs to a link, in their order: each datagram with the address of its peer, and each reply on the web connection that was received last. What the link loses is lost.
///
/// # Errors
///
/// Out of memory only, in the link; a prefix of them was passed then.
pub fn deliver_each<L: Link>(
    alloc: Global,
    peers: &PeerTable,
    link: &mut L,
    offers: &[Offer],
) -> Result<(), NoMemory>
    ensures delivered { DeliveredAll peers.now.known offers.now (L.output link.old) (L.output link.new) result }
    ensures lost { LostOnlyWhereRose (L.output link.old) (L.output link.new) (L.delivery_faults link.old) (L.delivery_faults link.new) }
    ensures counted { RoseBy (new_losses (L.output link.old) (L.output link.new)) (L.delivery_faults link.old) (L.delivery_faults link.new) }
    ensures received { L.input link.new ≡ L.input link.old }
    ensures bound { IsBoundStill (L.calls link.old) (L.calls link.new) }
    ensures arrival_faults { L.arrival_faults link.new ≡ L.arrival_faults link.old }
{
    for offer in offers {
        deliver(alloc, peers, link, offer)?;
    }
    Ok(())
}
