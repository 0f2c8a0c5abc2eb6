// How far a pass over the pending entries has come.
#[derive(Clone, Copy)]
pub struct Places {
    // how many entries are ready
    pub ready: usize,
    // the place of the pending entry that is asked next
    pub read: usize,
    // the place for the next one that stays, never past `read`
    pub write: usize,
}
