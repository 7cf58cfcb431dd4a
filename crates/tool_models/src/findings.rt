ghost use Rattle.std.specs.Prelude.{◌≡◌, ◌++◌, [], IfOk};
ghost use Rattle.report.specs.ProcessLines.{sum_text};
ghost use Rattle.tool_files.specs.Judged.{status_of_all};

use dm_base::{OutOfMemory, Status, Verdict};
use report::sum_line;
use std::alloc::Global;
use tool_files::{status_of, worse};
use tool_frame::Finished;

/// What was found of processes: the lines, and the verdicts that they tell.
#[derive(Drop)]
pub struct Findings {
    pub text: Vec<u8>,
    pub verdicts: Vec<Verdict>,
}

// The status of several verdicts.
fn status_of_all(verdicts: &[Verdict]) -> Status
    ensures { result ≡ status_of_all verdicts.now }
{
    let mut status = Status::Done;
    for verdict in verdicts {
        status = worse(status, status_of(*verdict));
    }
    status
}

impl Findings {
    /// Nothing was found yet.
    pub fn new(alloc: Global) -> Findings
        ensures text { result.text.items ≡ [] }
        ensures verdicts { result.verdicts.items ≡ [] }
    {
        Findings {
            text: Vec::new(alloc),
            verdicts: Vec::new(alloc),
        }
    }

    /// The lines and their sum, with the status of the verdicts.
    pub fn conclude(self, alloc: Global) -> Result<Finished, OutOfMemory>
        ensures status { IfOk result (λ done. done.status ≡ status_of_all self.verdicts.items) }
        ensures text { IfOk result (λ done. done.text.items ≡ self.text.items ++ sum_text self.verdicts.items) }
    {
        let Findings { mut text, verdicts } = self;
        let line = sum_line(alloc, &verdicts)?;
        text.extend_from_slice(&line)?;
        Ok(Finished {
            status: status_of_all(&verdicts),
            text,
        })
    }
}
