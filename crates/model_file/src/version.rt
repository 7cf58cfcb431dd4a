/// The version of a model file. In version 2 a system-call edge has a pattern of arguments.
#[derive(Clone, Copy)]
pub enum ModelVersion {
    /// `dyckmon-model 1`
    One,
    /// `dyckmon-model 2`
    Two,
}
