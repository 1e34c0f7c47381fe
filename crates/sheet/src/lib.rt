// The reader of sheets, for everyone.
#![tactic(auto)]

pub mod reader;
