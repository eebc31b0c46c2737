//! One run of the top function over devices in memory, and its result.
//!
//! A script may begin with `settings`, which configure the devices, and which of their calls fail.

use crate::links::{link, write_link};
use crate::pages::{Page, add_script, add_short};
use crate::script_settings::{
    behind_settings, bytes_of, config, first_setting, named, numbers, of_pair, setting,
};
use mmtel_base::{List, Text, plain_number, skip_text, split_once_at};
use mmtel_cli::{Keeper, MemoryFiles, MemoryKeeper, MemorySink, run};
use mmtel_journal::{JournalKeeper, MemoryDisk, make};
use mmtel_types::Account;

/// The words of a replay, with the token of the listings.
const REPLAY: &[u8] = b"replay|server.cfg|run.script|--token|0123456789abcdef";

fn add_file(page: &mut Page, files: &mut List<(Text, Text)>, name: &[u8], text: &Page) {
    let file = (page.copy(name), page.copy(text.bytes()));
    if files.push(page.alloc, file).is_err() || text.has_failed() {
        page.fail();
    }
}

/// Adds the script, with the first or the second of each alternative.
fn add_script_file(page: &mut Page, files: &mut List<(Text, Text)>, script: &[u8], first: bool) {
    let mut text = Page::new(page.alloc);
    add_script(&mut text, behind_settings(script), first);
    add_file(page, files, b"run.script", &text);
    drop(text);
}

/// Adds the further files that the settings name.
fn add_named(page: &mut Page, files: &mut List<(Text, Text)>, script: &[u8]) {
    let mut rest = script;
    for _ in 0..12 {
        match first_setting(rest) {
            None => break,
            Some((line, later)) => {
                if let Some(file) = skip_text(b"file:", line) {
                    let (name, text) = named(page, file);
                    add_file(page, files, name, &text);
                    drop(text);
                }
                rest = later;
            }
        }
    }
}

/// Adds the configuration, with the lines of the first or of the second of two runs.
fn add_config(page: &mut Page, files: &mut List<(Text, Text)>, script: &[u8], first: bool) {
    let mut config = config(page, script);
    add_short(&mut config, of_pair(script, first));
    add_file(page, files, b"server.cfg", &config);
    drop(config);
}

/// Adds the files that exist.
fn add_files(page: &mut Page, files: &mut List<(Text, Text)>, script: &[u8], first: bool) {
    if setting(script, b"no-config").is_none() {
        add_config(page, files, script, first);
    }
    if setting(script, b"no-script").is_none() {
        add_script_file(page, files, script, first);
    }
    add_named(page, files, script);
}

fn files(page: &mut Page, script: &[u8], first: bool) -> MemoryFiles {
    let mut files = List::new();
    add_files(page, &mut files, script, first);
    let failing = numbers(page, script, b"reads:");
    MemoryFiles::new(files, failing)
}

/// Stores one record in the keeper.
fn store<K: Keeper>(page: &mut Page, keeper: &mut K, record: &[u8]) {
    let (digits, text) = named(page, record);
    let account = match plain_number(99, digits) {
        Some(number) => number as u32,
        None => 0,
    };
    let stored = keeper.store(page.alloc, Account(account), text.bytes());
    page.fail_unless(stored.is_ok() && !text.has_failed());
    drop(text);
}

/// Stores the records that the settings name in the keeper.
fn store_all<K: Keeper>(page: &mut Page, keeper: &mut K, script: &[u8]) {
    let mut rest = script;
    for _ in 0..12 {
        match first_setting(rest) {
            None => break,
            Some((line, later)) => {
                if let Some(record) = skip_text(b"record:", line) {
                    store(page, keeper, record);
                }
                rest = later;
            }
        }
    }
}

/// A keeper over a journal that is created on a disk in memory: `make` takes three calls of the disk, and `open` two.
fn journal(page: &mut Page, script: &[u8]) -> Option<JournalKeeper<MemoryDisk>> {
    let failing = numbers(page, script, b"disk:");
    let mut disk = MemoryDisk::new(page.alloc, failing);
    let made = make(&mut disk);
    page.fail_unless(made.is_ok());
    let opened = JournalKeeper::open(page.alloc, disk);
    page.value_or_fail(opened)
}

fn add_word(page: &mut Page, words: &mut List<Text>, word: &[u8]) {
    let text = page.copy(word);
    if words.push(page.alloc, text).is_err() {
        page.fail();
    }
}

/// Adds the words that `|` separates, at most a dozen.
fn add_words(page: &mut Page, texts: &mut List<Text>, words: &[u8]) {
    let mut rest = words;
    for _ in 0..12 {
        match split_once_at(b'|', rest) {
            None => break,
            Some((word, later)) => {
                add_word(page, texts, word);
                rest = later;
            }
        }
    }
    add_word(page, texts, rest);
}

/// The words that `|` separates; none where there are no bytes.
fn texts(page: &mut Page, words: &[u8]) -> List<Text> {
    let mut texts = List::new();
    if !words.is_empty() {
        add_words(page, &mut texts, words);
    }
    texts
}

/// Writes the status of a run of these words over these files, a line end, what the run writes to the sink, and the outputs of the link.
fn write_over<K: Keeper>(
    page: &mut Page,
    script: &[u8],
    words: &[Text],
    files: &mut MemoryFiles,
    keeper: &mut K,
    sink: &mut MemorySink,
) {
    let mut link = link(page, script);
    let status = run(page.alloc, words, files, &mut link, keeper, sink);
    page.add_number(u64::from(status));
    page.add(b"\n");
    page.add(sink.written());
    write_link(page, &link, setting(script, b"whole").is_some());
    drop(link);
}

/// The same over a sink as the settings describe it.
fn write_to_sink<K: Keeper>(
    page: &mut Page,
    script: &[u8],
    words: &[Text],
    files: &mut MemoryFiles,
    keeper: &mut K,
) {
    let failing = numbers(page, script, b"writes:");
    let room = bytes_of(script, b"room:");
    let most = bytes_of(script, b"most:");
    match MemorySink::new(page.alloc, room, most, failing) {
        Err(_) => page.fail(),
        Ok(sink) => {
            let mut sink = sink;
            write_over(page, script, words, files, keeper, &mut sink);
            drop(sink);
        }
    }
}

/// The same of these words, over files as the settings describe them.
fn write_run<K: Keeper>(page: &mut Page, script: &[u8], first: bool, words: &[u8], keeper: &mut K) {
    let words = texts(page, words);
    let mut files = files(page, script, first);
    write_to_sink(page, script, words.items(), &mut files, keeper);
    drop(files);
    drop(words);
}

/// Makes the first of two runs, which has the expected status.
fn run_before<K: Keeper>(
    page: &mut Page,
    script: &[u8],
    first: bool,
    words: &[u8],
    keeper: &mut K,
) {
    let mut before = Page::new(page.alloc);
    write_run(&mut before, script, first, words, keeper);
    let status = setting(script, b"before:").unwrap_or(b"0");
    page.fail_unless(before.bytes().starts_with(status));
    drop(before);
}

/// Writes the one run, or the second of two over one keeper.
fn write_runs<K: Keeper>(page: &mut Page, script: &[u8], first: bool, keeper: &mut K) {
    let words = setting(script, b"words:").unwrap_or(REPLAY);
    match setting(script, b"then:") {
        None => write_run(page, script, first, words, keeper),
        Some(then) => {
            run_before(page, script, first, words, keeper);
            write_run(page, script, first, then, keeper);
        }
    }
}

/// Writes the runs over a keeper that holds the records that the settings name.
fn write_keeping<K: Keeper>(page: &mut Page, script: &[u8], first: bool, keeper: &mut K) {
    store_all(page, keeper, script);
    write_runs(page, script, first, keeper);
}

/// Writes the runs over a keeper over a journal.
fn write_over_journal(page: &mut Page, script: &[u8], first: bool) {
    if let Some(mut keeper) = journal(page, script) {
        write_keeping(page, script, first, &mut keeper);
        drop(keeper);
    }
}

/// Writes the status of the run of a script, with the first or the second of each two, a line end, and what the run writes; where there is a second run, those of that one.
pub fn write_report(page: &mut Page, script: &[u8], first: bool) {
    if setting(script, b"journal").is_some() {
        return write_over_journal(page, script, first);
    }
    let mut keeper = MemoryKeeper::new(numbers(page, script, b"keeps:"));
    write_keeping(page, script, first, &mut keeper);
    drop(keeper);
}
