//! The audit of lists of places, of bytes and of plans, and the plan that is a customer's list.
#![tactic(auto)]

pub mod audits;
mod examination;
pub mod faults;
pub mod net_bytes;
pub mod place_bytes;
pub mod point_list;
mod sources;

pub use audits::{audit, audit_plan};
pub use faults::{AuditFault, LoadFault, NotNet};
pub use net_bytes::NetBytes;
pub use place_bytes::PlaceBytes;
pub use point_list::PointList;
