// One value of a docket.
#[derive(Clone, Copy, PartialEq, Eq, Debug)]
pub struct Entry {
    // the number of its field; a caller may make and print entries of any number
    pub field: u8,
    pub value: i64,
}
