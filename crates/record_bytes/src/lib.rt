// The record between struct and bytes: `storing` and `loading` of its parts, `agreed_rows` for what the two hold in another order.
#![tactic(auto)]

pub mod agreed_rows;
pub mod loading;
pub mod storing;
