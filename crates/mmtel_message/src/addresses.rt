//! How the server names itself in the messages that it sends (RFC 3261 §8.1.1.7, §8.1.1.8).
ghost use Rattle.std.specs.Prelude.{◌≡◌, ◌≤◌, ◌+◌, ◌++◌, IfOk, List, [], ℕ, length};
ghost use Rattle.mmtel_message.specs.Addresses.{HasFront, addr_text, contact_text, ip_text, via_front, via_text};

use itoa::{Buffer, Integer};
use mmtel_base::{NoMemory, Text};
use mmtel_types::Addr;
use std::alloc::Global;
use std::marker::Model;

/// The greatest length of `a.b.c.d:port`.
const ADDR: usize = 21;

/// The greatest length of `<sip:a.b.c.d:port>`.
const CONTACT: usize = 27;

/// The greatest length of `SIP/2.0/UDP a.b.c.d:port;branch=z9hG4bK`.
const VIA: usize = 48;

/// The server's own address for SIP, with the texts in which its messages name it. It is made once for a configuration, and in contracts it is the address.
#[derive(Clone, Copy, Debug)]
pub struct OwnAddress {
    addr: Addr,
    text: [u8; ADDR],
    text_len: u8,
    contact: [u8; CONTACT],
    contact_len: u8,
    via: [u8; VIA],
    via_len: u8,
}

impl Model for OwnAddress {
    ghost use Rattle.std.specs.Prelude.{length};
    ghost use Rattle.std.proofs.Common.{refl, sym};
    ghost use Rattle.mmtel_types.specs.declared.addrs.Addr.{Addr};
    ghost use Rattle.mmtel_message.specs.Addresses.{HasFront, addr_text, contact_text, padded, via_front};

    ghost Value = { Addr };

    ghost view = { λ own. own.addr };

    ghost inverse = { λ addr. record {
      addr = addr;
      text = padded 21 (addr_text addr);
      text_len = length (addr_text addr);
      contact = padded 27 (contact_text addr);
      contact_len = length (contact_text addr);
      via = padded 48 (via_front addr);
      via_len = length (via_front addr);
    } };

    ghost inverse_ok = { λ own texts. rw (sym texts.0.1) (rw (sym texts.1.1) (rw (sym texts.2.1) (rw (sym texts.0.0) (rw (sym texts.1.0) (rw (sym texts.2.0) refl))))) };

    ghost invariant = { λ own. HasFront 21 own.text own.text_len (addr_text own.addr) × HasFront 27 own.contact own.contact_len (contact_text own.addr)
        × HasFront 48 own.via own.via_len (via_front own.addr) };
}

/// Writes bytes into an array from a position on; the position after them.
fn put(out: &mut [u8], at: usize, bytes: &[u8]) -> usize
    requires fits { at + length bytes.now ≤ length out.old }
    ensures text { (n : ℕ) (text : List ℕ) → HasFront n out.old at text → HasFront n out.new result (text ++ bytes.now) }
    ensures after { result ≡ at + length bytes.now }
    ensures length { length out.new ≡ length out.old }
{
    let end = at + bytes.len();
    out[at..end].copy_from_slice(bytes);
    end
}

/// Writes a number into an array from a position on; the position after it.
fn put_number<I: Integer>(out: &mut [u8], at: usize, number: I) -> usize
    requires fits { at + I.MAX_STR_LEN ≤ length out.old }
    ensures text { (n : ℕ) (text : List ℕ) → HasFront n out.old at text → HasFront n out.new result (text ++ I.text number) }
    ensures after { result ≤ at + I.MAX_STR_LEN }
    ensures length { length out.new ≡ length out.old }
{
    let mut buffer = Buffer::new();
    put(out, at, buffer.format(number).as_bytes())
}

/// Writes an IPv4 address, `a.b.c.d`, into the front of an array; the position after it.
fn put_ip(out: &mut [u8], ip: [u8; 4]) -> usize
    requires fits { 15 ≤ length out.old }
    ensures text { (n : ℕ) → HasFront n out.old 0 [] → HasFront n out.new result (ip_text ip) }
    ensures after { result ≤ 15 }
    ensures length { length out.new ≡ length out.old }
{
    let at = put_number(out, 0, ip[0]);
    let at = put(out, at, b".");
    let at = put_number(out, at, ip[1]);
    let at = put(out, at, b".");
    let at = put_number(out, at, ip[2]);
    let at = put(out, at, b".");
    put_number(out, at, ip[3])
}

/// Writes an address, `a.b.c.d:port`, into the front of an array; the position after it.
fn put_addr(out: &mut [u8], addr: Addr) -> usize
    requires fits { 21 ≤ length out.old }
    ensures text { (n : ℕ) → HasFront n out.old 0 [] → HasFront n out.new result (addr_text addr) }
    ensures after { result ≤ 21 }
    ensures length { length out.new ≡ length out.old }
{
    let at = put_ip(out, addr.ip);
    let at = put(out, at, b":");
    put_number(out, at, addr.port)
}

/// Writes three texts into the front of an array; the position after them.
fn put_three(out: &mut [u8], first: &[u8], second: &[u8], third: &[u8]) -> usize
    requires fits { length first.now + (length second.now + length third.now) ≤ length out.old }
    ensures text { (n : ℕ) → HasFront n out.old 0 [] → HasFront n out.new result (first.now ++ (second.now ++ third.now)) }
    ensures after { result ≤ length out.old }
    ensures length { length out.new ≡ length out.old }
{
    let at = put(out, 0, first);
    let at = put(out, at, second);
    put(out, at, third)
}

impl OwnAddress {
    /// The server's own address, with its texts. It allocates nothing.
    pub fn of(addr: Addr) -> OwnAddress
        ensures { result ≡ addr }
    {
        let mut text = [0; ADDR];
        let text_len = put_addr(&mut text, addr);
        let mut contact = [0; CONTACT];
        let contact_len = put_three(&mut contact, b"<sip:", &text[..text_len], b">");
        let mut via = [0; VIA];
        let via_len = put_three(
            &mut via,
            b"SIP/2.0/UDP ",
            &text[..text_len],
            b";branch=z9hG4bK",
        );
        OwnAddress {
            addr,
            text,
            text_len: text_len as u8,
            contact,
            contact_len: contact_len as u8,
            via,
            via_len: via_len as u8,
        }
    }

    /// The address.
    pub fn addr(&self) -> Addr
        ensures { result ≡ self.now }
    {
        self.addr
    }

    /// The text of the address, `a.b.c.d:port`.
    pub fn text(&self) -> &[u8]
        ensures { result.now ≡ addr_text self.now }
    {
        &self.text[..usize::from(self.text_len)]
    }

    /// The server's Contact value, `<sip:a.b.c.d:port>` (RFC 3261 §8.1.1.8).
    pub fn contact(&self) -> &[u8]
        ensures { result.now ≡ contact_text self.now }
    {
        &self.contact[..usize::from(self.contact_len)]
    }

    /// The front of the server's Via value over UDP: all but what follows the magic cookie `z9hG4bK` of the branch (RFC 3261 §8.1.1.7).
    fn via_front(&self) -> &[u8]
        ensures { result.now ≡ via_front self.now }
    {
        &self.via[..usize::from(self.via_len)]
    }

    /// The server's Via value over UDP, with a branch after the magic cookie `z9hG4bK` (RFC 3261 §8.1.1.7).
    ///
    /// # Errors
    ///
    /// Out of memory only.
    pub fn via_text(&self, alloc: Global, branch: &[u8]) -> Result<Text, NoMemory>
        ensures text { IfOk result (λ t. t ≡ via_text self.now branch.now) }
    {
        let front = self.via_front();
        let mut out = Text::with_capacity(alloc, front.len().saturating_add(branch.len()))?;
        out.push(alloc, front)?;
        out.push(alloc, branch)?;
        Ok(out)
    }
}

/// The text of an IPv4 address, `a.b.c.d`.
///
/// # Errors
///
/// Out of memory only.
pub fn ip_text(alloc: Global, ip: [u8; 4]) -> Result<Text, NoMemory>
    ensures text { IfOk result (λ t. t ≡ ip_text ip) }
{
    let mut out = [0; ADDR];
    let len = put_ip(&mut out, ip);
    Text::of(alloc, &out[..len])
}
