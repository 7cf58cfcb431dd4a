use dm_base::Status;

/// A text that was made whole, and the status with which the tool ends once it is written.
#[derive(Drop)]
pub struct Finished {
    pub status: Status,
    pub text: Vec<u8>,
}
