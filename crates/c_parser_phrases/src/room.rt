ghost use Rattle.std.specs.Prelude.{◌≡◌, ◌<◌, ◌-◌};

/// What the limits still allow where a phrase begins.
#[derive(Clone, Copy)]
pub struct Room {
    /// The greatest height of a phrase: so many counted nodes may stand in each other.
    pub nodes: u32,
    /// How many pairs of parentheses that make no node may stand round a token.
    pub pairs: u32,
}

impl Room {
    /// What is left inside one more node.
    pub fn in_node(self) -> Room
        requires { 0 < self.nodes }
        ensures nodes { result.nodes ≡ self.nodes - 1 }
        ensures pairs { result.pairs ≡ self.pairs }
    {
        Room {
            nodes: self.nodes - 1,
            pairs: self.pairs,
        }
    }

    /// What is left inside one more pair of parentheses.
    pub fn in_pair(self) -> Room
        requires { 0 < self.pairs }
        ensures nodes { result.nodes ≡ self.nodes }
        ensures pairs { result.pairs ≡ self.pairs - 1 }
    {
        Room {
            nodes: self.nodes,
            pairs: self.pairs - 1,
        }
    }
}
