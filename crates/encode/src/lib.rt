// Writing the records of the CSMP draft that the agent shows and sends.
#![tactic(auto)]

mod write;

pub use write::{put_group, put_index, put_report, put_session, put_time};
