// Offsets from UTC, as numbers and as the zone names of mail.
#![tactic(auto)]

pub mod mail;
pub mod offset;
pub mod separator;
