//! Links in memory: their inputs and outputs.

use crate::pages::{Page, add_script, add_short};
use crate::script_settings::{behind_settings, config, numbers, setting, value};
use mmtel_base::List;
use mmtel_cli::{Directory, Event, ScriptLink, read_directory};
use mmtel_link::MemoryLink;
use mmtel_test_tables::split_or_all;

/// The inputs from the peers of a configuration.
fn heard_of(page: &mut Page, script: &[u8], directory: &Directory) -> Option<ScriptLink> {
    let mut lines = Page::new(page.alloc);
    add_script(&mut lines, behind_settings(script), true);
    let link = ScriptLink::read(page.alloc, lines.bytes(), &directory.peers);
    drop(lines);
    page.value_or_fail(link)
}

/// The inputs.
pub fn heard(page: &mut Page, script: &[u8]) -> Option<ScriptLink> {
    let mut text = config(page, script);
    add_short(&mut text, value(script, b"peer:"));
    let directory = read_directory(page.alloc, text.bytes());
    drop(text);
    let directory = page.value_or_fail(directory)?;
    let heard = heard_of(page, script, &directory);
    drop(directory);
    heard
}

fn copy(page: &mut Page, event: &Event) -> Event {
    match event {
        Event::Datagram { from, at, bytes } => Event::Datagram {
            from: *from,
            at: *at,
            bytes: page.copy(bytes.bytes()),
        },
        Event::Web { at, bytes } => Event::Web {
            at: *at,
            bytes: page.copy(bytes.bytes()),
        },
        Event::Quiet { at } => Event::Quiet { at: *at },
    }
}

/// The same events, for another link.
fn copies(page: &mut Page, events: &[Event]) -> List<Event> {
    let mut list = List::new();
    for event in events {
        let copied = copy(page, event);
        if list.push(page.alloc, copied).is_err() {
            page.fail();
        }
    }
    list
}

/// A link of these events, of which the calls of the settings fail.
pub fn link_of(page: &mut Page, script: &[u8], events: &[Event]) -> MemoryLink {
    let events = copies(page, events);
    MemoryLink::new(events, numbers(page, script, b"link:"))
}

/// A link of these inputs.
fn link_of_heard(page: &mut Page, script: &[u8], heard: Option<ScriptLink>) -> MemoryLink {
    match heard {
        None => link_of(page, script, &[]),
        Some(heard) => {
            let link = link_of(page, script, heard.events());
            drop(heard);
            link
        }
    }
}

/// A link of the events of a script.
fn told_link(page: &mut Page, script: &[u8]) -> MemoryLink {
    let mut told = Page::new(page.alloc);
    let heard = heard(&mut told, script);
    drop(told);
    link_of_heard(page, script, heard)
}

/// A link of the events of a script; one without input where the settings do not require it, and where the configuration or the script is bad.
pub fn link(page: &mut Page, script: &[u8]) -> MemoryLink {
    match setting(script, b"link:") {
        None => MemoryLink::new(List::new(), List::new()),
        Some(_) => told_link(page, script),
    }
}

/// Writes the first line of a text that was sent.
fn write_first(page: &mut Page, text: &[u8]) {
    let (line, _) = split_or_all(b'\r', text);
    page.add(line);
    page.add(b"\n");
}

/// Writes a text that was sent, its lines after `|`, except the first.
fn write_whole(page: &mut Page, text: &[u8]) {
    let mut lines = Page::new(page.alloc);
    lines.add_ended(b'\r', text, b"");
    let text = lines.bytes();
    page.add_ended(b'\n', text.strip_suffix(b"\n").unwrap_or(text), b"\n|");
    page.add(b"\n");
    page.fail_unless(!lines.has_failed());
    drop(lines);
}

/// Writes a text that was sent, and whether it was lost.
fn write_delivered(page: &mut Page, text: &[u8], lost: bool, whole: bool) {
    if lost {
        page.add(b"lost ");
    }
    if whole {
        write_whole(page, text);
    } else {
        write_first(page, text);
    }
}

/// Writes the outputs of a link: each datagram after the port to which it goes, and then the replies.
pub fn write_link(page: &mut Page, link: &MemoryLink, whole: bool) {
    for sent in link.offers() {
        page.add_number(u64::from(sent.to.port));
        page.add(b" ");
        write_delivered(page, sent.text.bytes(), sent.lost, whole);
    }
    for replied in link.replies() {
        write_delivered(page, replied.text.bytes(), replied.lost, whole);
    }
}
