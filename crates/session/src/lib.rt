// Session files: what a host and its devices did, record by record.
#![tactic(auto)]

mod decode;
pub mod reader;
pub mod record_kinds;
