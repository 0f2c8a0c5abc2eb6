//! The docket: which requests were sent and are not completed (tower: `load::completion`, whose handles are tickets
//! here).
//!
//! [`Docket::note`] is called when a request goes to a worker and answers a ticket; [`Docket::remove`] gives the record
//! of a ticket back when the request is over. A docket knows workers by their serials alone, and allocates nothing:
//!
//! ```text
//! let mut docket = Docket::new(records, 1);
//! let ticket = docket.note(serial, now)?;
//! ..
//! let record = docket.remove(ticket);     // Some, with the serial and the sending instant; a second time None
//! ```
#![tactic(auto)]

mod docket;
mod docket_record;
mod docket_refusal;

pub use docket::Docket;
pub use docket_record::DocketRecord;
pub use docket_refusal::DocketRefusal;
