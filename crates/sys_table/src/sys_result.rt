use line_text::Bytes;

/// The recorded result of a system call.
#[derive(Drop)]
pub struct SysResult {
    /// The value that the call answered.
    pub value: i64,
    /// The data that `read` put into its buffer.
    pub bytes: Bytes,
}
