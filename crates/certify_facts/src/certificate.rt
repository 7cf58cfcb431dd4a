ghost use Rattle.std.specs.Prelude.{◌≡◌, All};
ghost use Rattle.certify_facts.specs.Form.{IsCounted, IsFormed};

use crate::{FactLine, Judge};
use dm_base::Verdict;

/// What is claimed of a trace, with facts that show it. Seen as its judge, its verdict and its lines.
/// The verdict is Accepted or Rejected with a number that fits u32, and each line has a fact of the
/// judge's model and a reason that goes with this form of fact.
#[derive(Drop)]
pub struct Certificate {
    model: Judge,
    claimed: Verdict,
    facts: Vec<FactLine>,
}

impl std::marker::Model for Certificate {
    ghost use Rattle.certify_facts.specs.Told.{Told};

    ghost Value = { Told };

    ghost use Rattle.certify_facts.specs.Inside.{told_of, IsWhole};

    ghost view = { told_of };

    ghost invariant = { IsWhole };
}

impl Certificate {
    /// The certificate with these parts.
    pub fn new(judge: Judge, verdict: Verdict, lines: Vec<FactLine>) -> Certificate
        requires counted { IsCounted verdict }
        requires formed { All (IsFormed judge) lines.items }
        ensures { result ≡ record { judge = judge; verdict = verdict; lines = lines.items } }
    {
        Certificate {
            model: judge,
            claimed: verdict,
            facts: lines,
        }
    }

    /// The model that judges.
    pub fn judge(&self) -> Judge
        ensures { result ≡ self.now.judge }
    {
        self.model
    }

    /// The verdict that is claimed.
    pub fn verdict(&self) -> Verdict
        ensures verdict { result ≡ self.now.verdict }
        ensures counted { IsCounted self.now.verdict }
    {
        self.claimed
    }

    /// The facts with their reasons.
    pub fn lines(&self) -> &[FactLine]
        ensures lines { result.now ≡ self.now.lines }
        ensures formed { All (IsFormed self.now.judge) self.now.lines }
    {
        &self.facts
    }
}
