//! Theorems about the table of calls: each call takes exactly the steps of its own signals, so its result is that of one call; and noninterference, what nobody may learn from it:
//! two tables that are equal but for private places remain indistinguishable, whatever the operations, and untrusted peers see the same of their output. The crate has definitions
//! and theorems, and no code.
#![tactic(auto)]

mod noninterference;
mod theorems;

pub use noninterference::{
    equivalent_tables_answer_equally, tables_keep_their_invariant, tables_stay_equivalent,
};
pub use theorems::{
    calls_of_tables_are_exact, calls_take_their_steps, charging_records_are_in_order, legs_go_back,
    other_operations_output_nothing, table_calls_reply_in_their_own, tables_send_no_injection,
    traces_reach_their_outcome,
};
