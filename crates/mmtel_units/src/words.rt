//! The words of the command line.

use crate::asserting::assert_right;
use mmtel_base::{List, Text, split_once_at};
use mmtel_test_tables::{RowRunner, Transcript, wrong_line};
use mmtel_words::{WantedCommand, command};

/// The words, which `|` separates.
fn words_of(transcript: &mut Transcript, asked: &[u8]) -> List<Text> {
    let mut words = List::new();
    let mut rest = Some(asked);
    for _ in 0..16 {
        let Some(text) = rest else {
            return words;
        };
        let (word, later) = match split_once_at(b'|', text) {
            Some((word, later)) => (word, Some(later)),
            None => (text, None),
        };
        rest = later;
        let word = transcript.copy(word);
        let pushed = words.push(transcript.alloc, word);
        transcript.fail_unless(pushed.is_ok());
    }
    words
}

fn add_wanted(transcript: &mut Transcript, wanted: &WantedCommand) {
    match wanted {
        WantedCommand::Serve(serve) => {
            transcript.add(b"serve");
            transcript.add_part(b"config", serve.config.bytes());
            transcript.add_part(b"token", serve.token.bytes());
            transcript.add_spaced_number(serve.turns);
        }
        WantedCommand::Replay(replay) => {
            transcript.add(b"replay");
            transcript.add_part(b"config", replay.config.bytes());
            transcript.add_part(b"script", replay.script.bytes());
            transcript.add_part(b"token", replay.token.bytes());
        }
        WantedCommand::Check(records) => {
            transcript.add(b"check");
            transcript.add_part(b"records", records.bytes());
        }
        WantedCommand::Charges(config) => {
            transcript.add(b"charges");
            transcript.add_part(b"config", config.bytes());
        }
        WantedCommand::Workload { calls, salt } => {
            transcript.add(b"workload");
            transcript.add_spaced_number(u64::from(*calls));
            transcript.add_spaced_number(u64::from(*salt));
        }
    }
}

/// The command that the words spell, with its values; else `none`.
#[derive(Drop)]
struct Lines;

impl RowRunner for Lines {
    fn run_row(&mut self, transcript: &mut Transcript, asked: &[u8]) {
        let words = words_of(transcript, asked);
        let wanted = command(transcript.alloc, words.items());
        drop(words);
        match wanted {
            Ok(Some(wanted)) => {
                add_wanted(transcript, &wanted);
                drop(wanted);
            }
            Ok(None) => transcript.add(b"none"),
            Err(_) => transcript.fail(),
        }
        transcript.add(b"\n");
    }
}

const LINES: &[u8] = b"> serve|server.cfg|--token|0123456789abcdef|--turns|1
serve config<server.cfg> token<0123456789abcdef> 1
> serve|--turns=1000000000|--token=ffffffffffffffff|--|-c
serve config<-c> token<ffffffffffffffff> 1000000000
> replay|c|s|--token|0123456789abcdef
replay config<c> script<s> token<0123456789abcdef>
> replay|-|--token=0123456789abcdef|--|--token
replay config<-> script<--token> token<0123456789abcdef>
> replay||c|--token|0123456789abcdef|--
replay config<> script<c> token<0123456789abcdef>
> check|records.toml
check records<records.toml>
> check|--|--
check records<-->
> charges|check
charges config<check>
> charges|-
charges config<->
> workload|--calls|10|--salt|1
workload 10 1
> workload|--salt=4294967295|--calls=10000|--
workload 10000 4294967295
> workload|--salt|0|--calls|1
workload 1 0
> 
none
> help
none
> --help
none
> serve
none
> Serve|c|--token|0123456789abcdef|--turns|1
none
> serve|c|--token|0123456789abcdef
none
> serve|c|--turns|1
none
> serve|c|d|--token|0123456789abcdef|--turns|1
none
> serve|c|--token|0123456789abcdef|--turns|0
none
> serve|c|--token|0123456789abcdef|--turns|01
none
> serve|c|--token|0123456789abcdef|--turns|1000000001
none
> serve|c|--token|0123456789abcdef|--turns|+1
none
> serve|c|--token|0123456789abcdef|--turns|-
none
> serve|c|--token|0123456789abcdef|--turns=
none
> serve|c|--token|0123456789abcdef|--turns|1|--turns|1
none
> serve|c|--turns|--token|0123456789abcdef
none
> serve|c|--turn|1|--token|0123456789abcdef
none
> serve|c|--token|0123456789abcdef|--turns|1|--help
none
> serve|c|--token|0123456789abcdef|--turns|1|-h
none
> serve|c|--token|0123456789abcdef|--turns|1|--=x
none
> replay|c|s|--token|-
none
> replay|c|s|--token=-
none
> replay|c|s|--token|--|0123456789abcdef
none
> replay|c|s|--token
none
> replay|c|s|--token|0123456789abcdeF
none
> replay|c|s|--token|0123456789abcde
none
> replay|c|-s|--token|0123456789abcdef
none
> replay|c|s|--|--token|0123456789abcdef
none
> --|replay|c|s|--token|0123456789abcdef
none
> check
none
> check|a|b
none
> check|-a
none
> check|\xff
none
> check|--token=0123456789abcdef|a
none
> charges|c|--|d
none
> workload|--calls|0|--salt|0
none
> workload|--calls|10001|--salt|0
none
> workload|--calls|1|--salt|4294967296
none
> workload|--calls|1
none
> workload|c|--calls|1|--salt|0
none
";

#[test]
fn reads_the_words(rt: HostRuntime) {
    assert_right(&rt, "LINES", wrong_line(rt.alloc(), &mut Lines, LINES));
}
