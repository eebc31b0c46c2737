//! Worked rows over the top function: words, files, a keeper and a sink in memory, with the resulting status and text; and tables over the functions directly below it: of the
//! server, and of the parsed values of events, the dispositions of requests and the messages built of them.
//!
//! What the contracts claim needs no test. These are whole runs whose texts come from the standards and from the rules of the formats, and runs over files, keepers, links and
//! sinks that fail, with enough memory, since a body that always returns out of memory satisfies its contract too.
#![tactic(auto)]

#[cfg(test)]
mod asserting;
#[cfg(test)]
mod calls;
#[cfg(test)]
mod cases;
#[cfg(test)]
mod checks;
#[cfg(test)]
mod composing;
#[cfg(test)]
mod conferences;
#[cfg(test)]
mod damaged;
#[cfg(test)]
mod devices;
#[cfg(test)]
mod dispositions;
#[cfg(test)]
mod failing;
#[cfg(test)]
mod faults;
#[cfg(test)]
mod journals;
#[cfg(test)]
mod limits;
#[cfg(test)]
mod links;
#[cfg(test)]
mod mailboxes;
#[cfg(test)]
mod noninterference;
#[cfg(test)]
mod openings;
#[cfg(test)]
mod pages;
#[cfg(test)]
mod pairs;
#[cfg(test)]
mod parsing;
#[cfg(test)]
mod registration;
#[cfg(test)]
mod reliable;
#[cfg(test)]
mod requests;
#[cfg(test)]
mod runs;
#[cfg(test)]
mod script_settings;
#[cfg(test)]
mod serve_runs;
#[cfg(test)]
mod server_steps;
#[cfg(test)]
mod server_tables;
#[cfg(test)]
mod services;
#[cfg(test)]
mod sessions;
#[cfg(test)]
mod snapshots;
#[cfg(test)]
mod steps;
#[cfg(test)]
mod timers;
#[cfg(test)]
mod uploads;
#[cfg(test)]
mod words;
#[cfg(test)]
mod workloads;
