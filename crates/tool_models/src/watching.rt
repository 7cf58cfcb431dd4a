ghost use Rattle.std.specs.Prelude.{◌≡◌, List, [], ◌∷◌, ◌++◌, All, decimal, codes, IfOk, IfSome, OnOk};
ghost use Rattle.std.specs.Option.{option_copied};
ghost use Rattle.dm_base.specs.declared.event.Event.{Event as Event'};
ghost use Rattle.flow_model.specs.Rules.{IsValid};
ghost use Rattle.report.specs.VerdictLine.{verdict_text, IsGiven};
ghost use Rattle.sys_table.specs.Table.{IsRecorded};
ghost use Rattle.watch.specs.Pasts.{last_kept};
ghost use Rattle.watch.specs.Watching.{StandsFor};
ghost use Rattle.tool_models.specs.Watched.{window_text};

use crate::findings::Findings;
use crate::watches::Watches;
use dm_base::{Event, OutOfMemory, Verdict};
use flow_model::{Model, Monitor, Which};
use report::{verdict_line, window_lines};
use std::alloc::Global;
use trace_file::TracesVersion;
use watch::Watch;

// The line of a process: its number and the line of the verdict.
fn process_line(
    alloc: Global,
    pid: u32,
    which: Which,
    verdict: Verdict,
    refused: Option<&Event>,
) -> Result<Vec<u8>, OutOfMemory>
    requires given { IsGiven verdict (option_copied refused) }
    requires recorded { IfSome refused (λ e. IsRecorded e.now) }
    ensures { IfOk result (λ line. line.items ≡ decimal pid ++ codes " " ++ verdict_text which verdict (option_copied refused.entry)) }
{
    let told = verdict_line(alloc, which, &verdict, refused)?;
    let mut line = format!(in alloc; "{pid} ")?.into_bytes();
    line.extend_from_slice(&told)?;
    Ok(line)
}

// The events before the rejection of a process, or none where the verdict is another.
fn window_of(alloc: Global, verdict: Verdict, window: &[Event]) -> Result<Vec<u8>, OutOfMemory>
    requires { All IsRecorded window.now }
    ensures { IfOk result (λ lines. (h : List Event') → window.now ≡ last_kept verdict h → lines.items ≡ window_text verdict h) }
{
    match verdict {
        Verdict::Rejected { at } => window_lines(alloc, at, window),
        Verdict::Accepted { .. } | Verdict::Bound { .. } => Ok(Vec::new(alloc)),
    }
}

// Adds a verdict, and the lines that tell it.
fn add(
    findings: &mut Findings,
    verdict: Verdict,
    line: Vec<u8>,
    window: Vec<u8>,
) -> Result<(), OutOfMemory>
    ensures text { OnOk result (findings.new.text.items ≡ findings.old.text.items ++ (line.items ++ window.items)) }
    ensures verdicts { OnOk result (findings.new.verdicts.items ≡ findings.old.verdicts.items ++ verdict ∷ []) }
{
    findings.text.extend_from_slice(&line)?;
    findings.text.extend_from_slice(&window)?;
    findings.verdicts.push(verdict)?;
    Ok(())
}

impl<M: Monitor> Watches for Watch<M> {
    ghost watched = { λ w g k version records. IsValid g × StandsFor M.Monitor g k version w records };

    ghost monitors = { M.WHICH ∷ [] };

    fn open(
        alloc: Global,
        model: &Model,
        bound: u32,
        version: TracesVersion,
    ) -> Result<Self, OutOfMemory> {
        let _valid = model.nodes();
        let own = model.copy()?;
        Watch::open(alloc, own, bound, version)
    }

    fn take(&mut self, pid: u32, event: &Event) -> Result<(), OutOfMemory> {
        match self.step(pid, event) {
            Ok(_) => Ok(()),
            Err(error) => Err(error),
        }
    }

    fn pids(&self, alloc: Global) -> Result<Vec<u32>, OutOfMemory> {
        let verdicts = self.verdicts()?;
        let mut pids = Vec::with_capacity(alloc, verdicts.len())?;
        for told in &verdicts {
            pids.push(told.0)?;
        }
        Ok(pids)
    }

    fn tell(&self, alloc: Global, pid: u32, findings: &mut Findings) -> Result<(), OutOfMemory> {
        let Some(verdict) = self.verdict(pid) else {
            unreachable!();
        };
        let line = process_line(alloc, pid, M::WHICH, verdict, self.refused(pid))?;
        let events = self.window(pid)?;
        let window = window_of(alloc, verdict, &events)?;
        add(findings, verdict, line, window)?;
        Ok(())
    }
}
