#![tactic(auto)]
//! Reports of faults, and what is told of them: a counter, and a recorder that lists them too.

mod counter;
mod listener;
mod recorder;
mod report;

pub use counter::Counter;
pub use listener::{Listener, notify_error_listeners};
pub use recorder::Recorder;
pub use report::{Report, ReportKind};
