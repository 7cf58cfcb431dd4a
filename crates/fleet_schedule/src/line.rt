use dm_base::Bytes;

/// A process of a schedule: its number, the names of the files of its program, its model and its
/// recorded results, how many turns it has, 0 to 1,000,000, and how many calls may be open at once in
/// the Dyck model, 1 to 65,535.
#[derive(Drop)]
pub struct Line {
    pub pid: u32,
    pub file: Bytes,
    pub model: Bytes,
    pub results: Bytes,
    pub turns: u32,
    pub bound: u32,
}
