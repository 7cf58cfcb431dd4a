ghost use Rattle.std.specs.Prelude.{◌≡◌};

use std::marker::Model;

/// Sites of call edges, seen as their list.
#[derive(Drop)]
pub struct Sites {
    listed: Vec<u32>,
}

impl Model for Sites {
    ghost use Rattle.std.specs.Prelude.{List, ℕ};

    ghost Value = { List ℕ };

    ghost view = { λ s. s.listed.items };
}

impl Sites {
    /// These sites. It takes no memory.
    pub fn new(sites: Vec<u32>) -> Sites
        ensures { result ≡ sites.items }
    {
        Sites { listed: sites }
    }

    /// The sites as a slice.
    pub fn as_slice(&self) -> &[u32]
        ensures { result.now ≡ self.now }
    {
        &self.listed
    }

    /// The sites as a vector. It takes no memory.
    pub fn into_vec(self) -> Vec<u32>
        ensures { result.items ≡ self }
    {
        let Sites { listed } = self;
        listed
    }
}
