ghost use Rattle.std.specs.Prelude.{◌≤◌, [], All, length};
ghost use Rattle.line_text.specs.OneLine.{IsLine};
ghost use Rattle.line_text.specs.Reading.{Reads};
ghost use Rattle.fleet_schedule.specs.Lines.{MayStand, schedule_line};
ghost use Rattle.fleet_schedule.specs.ScheduleText.{IsRightLine};

use crate::Line;
use crate::process_reading::{take_advance, take_process};
use line_text::{Cursor, Miss};
use std::alloc::Global;

/// A line of a schedule after the first.
#[derive(Drop)]
pub enum ScheduleLine {
    Process(Line),
    Advance(u32),
    End,
}

/// The line of a schedule that the whole of this one is, after the lines of these processes and, where
/// it is so, of some advance.
pub fn read_schedule_line(
    alloc: Global,
    line: &[u8],
    processes: &[Line],
    advancing: bool,
) -> Result<ScheduleLine, Miss>
    requires line { IsLine line.now }
    requires few { length processes.now ≤ 64 }
    requires right { All IsRightLine processes.now }
    ensures { Reads (MayStand processes.now advancing) schedule_line line.now [] result }
{
    match line {
        [] => Err(Miss::Short),
        [b'p', ..] => {
            if advancing {
                return Err(Miss::Wrong);
            }
            match take_process(alloc, &mut Cursor { rest: line }, processes) {
                Ok(process) => Ok(ScheduleLine::Process(process)),
                Err(miss) => Err(miss),
            }
        }
        [b'a', ..] => match take_advance(&mut Cursor { rest: line }, processes) {
            Ok(pid) => Ok(ScheduleLine::Advance(pid)),
            Err(miss) => Err(miss),
        },
        _ => match (Cursor { rest: line }).take(b"end\n") {
            Ok(()) => Ok(ScheduleLine::End),
            Err(miss) => Err(miss),
        },
    }
}
