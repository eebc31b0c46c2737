//! Tests of calls and conferences: each transition of the step table of a call, several calls in a table, and each one of that of a conference, as sequences of received messages,
//! with all that is then sent; how conferences are created, joined, notified, left and closed. A table is one text, worked out by hand.
#![tactic(auto)]

#[cfg(test)]
mod adopting;
#[cfg(test)]
mod answered;
#[cfg(test)]
mod asserting;
#[cfg(test)]
mod branches;
#[cfg(test)]
mod call_tables;
#[cfg(test)]
mod closed_conferences;
#[cfg(test)]
mod conference_limits;
#[cfg(test)]
mod conference_messages;
#[cfg(test)]
mod conference_operations;
#[cfg(test)]
mod conference_tables;
#[cfg(test)]
mod diverting;
#[cfg(test)]
mod environments;
#[cfg(test)]
mod expiring;
#[cfg(test)]
mod giving_up;
#[cfg(test)]
mod leaving;
#[cfg(test)]
mod leg_operations;
#[cfg(test)]
mod legs;
#[cfg(test)]
mod limits;
#[cfg(test)]
mod messages;
#[cfg(test)]
mod offered;
#[cfg(test)]
mod opening;
#[cfg(test)]
mod participants;
#[cfg(test)]
mod records;
#[cfg(test)]
mod referrals;
#[cfg(test)]
mod reinvites;
#[cfg(test)]
mod reliable;
#[cfg(test)]
mod several_calls;
#[cfg(test)]
mod step_reports;
#[cfg(test)]
mod tables_of_calls;
#[cfg(test)]
mod whole_messages;
