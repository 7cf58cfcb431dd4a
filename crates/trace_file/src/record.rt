use dm_base::Event;

/// An event of the process with this number.
pub struct Record {
    pub pid: u32,
    pub event: Event,
}

// Written, so that a function that drops one proves no more than a call of it.
impl Drop for Record {
    fn drop(self) {
        let Self {
            pid: _,
            event: _event,
        } = self;
    }
}
