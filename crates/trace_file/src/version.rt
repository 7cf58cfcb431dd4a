/// The version of a file of interleaved traces. They differ in what a `fork` means: in version 2 it
/// makes its child known, which goes on from its parent's history.
#[derive(Clone, Copy)]
pub enum TracesVersion {
    /// `dyckmon-traces 1`
    One,
    /// `dyckmon-traces 2`
    Two,
}
