//! The input of each step of the table.

use mmtel_call_services::CallConfig;
use mmtel_sheet_values::SheetView;
use mmtel_types::Moment;
use std::alloc::Global;

/// The input of a step of the table; the table itself adds which accounts the calls keep busy.
#[derive(Clone, Copy)]
pub struct StepContext<'a> {
    /// The allocator.
    pub alloc: Global,
    /// The configuration.
    pub config: &'a CallConfig<'a>,
    /// The records in force, and the registrations.
    pub sheets: &'a SheetView,
    /// The moment.
    pub at: Moment,
}
