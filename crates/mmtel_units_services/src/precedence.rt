//! The precedence of services: the decisions on calls, as tables over `verdict` and `go_on`, over next steps, and over the ends of attempts (TS 24.604, TS 24.611, TS 24.615, RFC
//! 4458).

mod decisions;
mod next_steps;
mod records;
mod reports;
