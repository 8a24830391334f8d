// A collector that keeps its values in the order in which they came.
#![tactic(auto)]

ghost use Rattle.std.specs.Prelude.{◌≡◌, ◌≤◌, true, vec_capacity};
ghost use Rattle.docket.specs.Entries.{apart, fit};

use self::entry::Entry;

pub mod entry;
pub mod offers;
pub mod shown;

// Room for one entry of each field is reserved from the start, so no offer fails for want of memory.
// It has no model as a plain list: that values lie in their ranges is a law of each docket, and not of each list.
#[derive(Drop)]
pub struct Docket {
    entries: Vec<Entry>,
    ghost room: { 21 ≤ vec_capacity entries },
    ghost distinct: { apart entries.items ≡ true },
    ghost fitting: { fit entries.items ≡ true },
}
