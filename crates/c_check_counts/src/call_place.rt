/// A call expression of a unit.
#[derive(Clone, Copy)]
pub struct CallPlace<'t> {
    /// The name of the function in whose body it stands.
    pub caller: &'t [u8],
    /// The place of its first byte.
    pub at: u32,
}
