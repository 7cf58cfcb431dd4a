ghost use Rattle.std.specs.Prelude.{◌≡◌, [], ◌∷◌, IfOk};
ghost use Rattle.dm_base.specs.declared.event.Event.{Event};
ghost use Rattle.report.specs.Measuring.{HasMeasured};
ghost use Rattle.report.specs.Precision.{precision_text};
ghost use Rattle.tool_models.specs.Measure.{AreMeasured};

use dm_base::{Event, OutOfMemory, Status};
use flow_model::{Model, Monitor, Which};
use report::{Meter, Precision, precision_line};
use std::alloc::Global;
use tool_files::Panel;
use tool_frame::Finished;

/// One monitor by which the precision of its model along a trace is measured.
#[derive(Drop)]
pub struct Metering<M: Monitor> {
    meter: Meter<M>,
}

// The line of a precision.
fn told(alloc: Global, which: Which, precision: Precision) -> Result<Finished, OutOfMemory>
    ensures status { IfOk result (λ done. done.status ≡ Status.Done) }
    ensures text { IfOk result (λ done. done.text.items ≡ precision_text which precision) }
{
    Ok(Finished {
        status: Status::Done,
        text: precision_line(alloc, which, &precision)?,
    })
}

impl<M: Monitor> Panel for Metering<M> {
    ghost judged = { λ j g k h. HasMeasured M.is_pool M.stands M.noted M.WHICH j.meter g h };

    ghost tells = { λ g k h status text. AreMeasured (M.WHICH ∷ []) g h status text };

    fn open(alloc: Global, model: &Model, _bound: u32) -> Result<Self, OutOfMemory> {
        Ok(Metering {
            meter: Meter::open(alloc, model)?,
        })
    }

    fn take(&mut self, _alloc: Global, model: &Model, event: &Event) -> Result<(), OutOfMemory> {
        self.meter.take(model, event)?;
        Ok(())
    }

    fn finish(self, alloc: Global) -> Result<Finished, OutOfMemory> {
        let precision = self.meter.figures();
        let finished = told(alloc, M::WHICH, precision)?;
        Ok(finished)
    }
}
