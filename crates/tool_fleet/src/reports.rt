use fleet::Standing;

/// What a process has come to, by its number.
#[derive(Drop)]
pub struct ProcessReport {
    pub pid: u32,
    pub standing: Standing,
}

/// How far a process has come: it goes on, it has ended, or it was refused.
#[derive(Clone, Copy)]
pub enum StandingKind {
    Open,
    Ended,
    Rejected,
    Bound,
}
