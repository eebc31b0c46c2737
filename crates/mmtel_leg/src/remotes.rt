//! The other side of a dialog as its message describes it where the dialog begins (RFC 3261 §12.1.1, §12.1.2).
ghost use Rattle.std.specs.Prelude.{◌≡◌, IfOk, reverse};
ghost use Rattle.mmtel_leg.specs.Remotes.{contact_uri, field_of, first_uri, in_order, remote_of, route_set, uri_named};
ghost use Rattle.mmtel_lex.specs.Reading.{name_addr_of};

use crate::fields::tag_in;
use mmtel_base::{List, NoMemory, Text};
use mmtel_lex::name_addr_ref;
use mmtel_message::Msg;
use mmtel_types::Side;
use std::alloc::Global;

/// The tag, the target and the route set that the other side of a dialog gives.
#[derive(Drop)]
pub struct Remote {
    /// Its tag; no bytes where it gave none.
    pub tag: Text,
    /// The URI of its first Contact value; no bytes where none can be read.
    pub target: Text,
    /// The route set: the Route values of a request to it, in order.
    pub routes: List<Text>,
}

/// The name of the line that names a side.
fn field_of(side: Side) -> &'static [u8]
    ensures { result.now ≡ field_of side }
{
    match side {
        Side::Caller => b"From",
        Side::Callee => b"To",
    }
}

/// The URI of a name-addr, or no bytes where the value is no name-addr.
fn uri_named(alloc: Global, value: &[u8]) -> Result<Text, NoMemory>
    ensures { IfOk result (λ t. t ≡ uri_named (name_addr_of value.now)) }
{
    match name_addr_ref(value) {
        None => Ok(Text::new()),
        Some(name) => Text::of(alloc, name.uri),
    }
}

fn first_uri(alloc: Global, values: &[Text]) -> Result<Text, NoMemory>
    ensures { IfOk result (λ t. t ≡ first_uri values.now) }
{
    match values {
        [] => Ok(Text::new()),
        [value, ..] => uri_named(alloc, value.bytes()),
    }
}

/// The URI of the first Contact value.
#[tactic(auto, unfolding(crate::specs::Remotes::contact_uri))]
fn contact_uri(alloc: Global, message: &Msg) -> Result<Text, NoMemory>
    ensures { IfOk result (λ t. t ≡ contact_uri message.now.lines) }
{
    let values = message.values(alloc, b"Contact")?;
    first_uri(alloc, values.items())
}

/// The values from the last to the first.
fn reversed_list(alloc: Global, values: List<Text>) -> Result<List<Text>, NoMemory>
    ensures { IfOk result (λ back. back ≡ reverse values) }
{
    let mut values = values;
    let mut back = List::new();
    'values: while let Some(value) = values.pop() {
        back.push(alloc, value)?;
    }
    Ok(back)
}

fn in_order(alloc: Global, side: Side, values: List<Text>) -> Result<List<Text>, NoMemory>
    ensures { IfOk result (λ routes. routes ≡ in_order side values) }
{
    match side {
        Side::Caller => Ok(values),
        Side::Callee => reversed_list(alloc, values),
    }
}

/// The route set.
#[tactic(auto, unfolding(crate::specs::Remotes::route_set))]
fn route_set(alloc: Global, side: Side, message: &Msg) -> Result<List<Text>, NoMemory>
    ensures { IfOk result (λ routes. routes ≡ route_set side message.now.lines) }
{
    let values = message.values(alloc, b"Record-Route")?;
    in_order(alloc, side, values)
}

impl Remote {
    /// Reads tag, target and route set of a side in a message that it sent: of the caller in its INVITE, whose Record-Route values are the route set in order (RFC 3261 §12.1.1),
    /// or of the callee in its response, whose values are the route set from the last to the first (§12.1.2).
    ///
    /// # Errors
    ///
    /// Out of memory only.
    pub fn read(alloc: Global, message: &Msg, side: Side) -> Result<Remote, NoMemory>
        ensures remote { IfOk result (λ remote. remote ≡ remote_of side message.now.lines) }
    {
        let tag = tag_in(alloc, field_of(side), message)?;
        let target = contact_uri(alloc, message)?;
        let routes = route_set(alloc, side, message)?;
        Ok(Remote {
            tag,
            target,
            routes,
        })
    }
}
