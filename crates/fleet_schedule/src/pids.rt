ghost use Rattle.std.specs.Prelude.{◌≡◌, ◌↔◌, ◌^◌, ◌<◌, ◌≤◌, ℕ, IsTrue, All, Contains, decimal, length};
ghost use Rattle.line_text.specs.Numbers.{IsFrontOf};
ghost use Rattle.line_text.specs.Spelling.{BeginsOne};
ghost use Rattle.fleet_schedule.specs.Lines.{IsFresh};
ghost use Rattle.fleet_schedule.specs.ScheduleText.{IsRightLine, pids};

use crate::Line;
use dm_base::read_u32;

// The greatest number of a process.
const GREATEST: u64 = u32::MAX as u64;

/// Whether a process has the number.
pub fn has_pid(processes: &[Line], pid: u32) -> bool
    ensures { IsTrue result ↔ Contains (pids processes.now) pid }
{
    for process in processes {
        if process.pid == pid {
            return true;
        }
    }
    false
}

/// Whether the decimal of some number that no process has begins with the text, or is it.
pub fn begins_fresh(processes: &[Line], text: &[u8]) -> bool
    requires { length processes.now ≤ 64 }
    ensures { IsTrue result ↔ BeginsOne (IsFresh processes.now) decimal text.now }
{
    if text.is_empty() {
        return true;
    }
    match read_u32(text) {
        Some(0) => !has_pid(processes, 0),
        Some(front) => has_fresh(processes, u64::from(front)),
        None => false,
    }
}

// Whether the decimal of some number that no process has begins with that of the front.
fn has_fresh(processes: &[Line], front: u64) -> bool
    requires { 0 < front }
    ensures { IsTrue result ↔ ((n : ℕ) × IsFresh processes.now n × IsFrontOf front n) }
{
    if front > GREATEST {
        return false;
    }
    if !has_pid(processes, front as u32) {
        return true;
    }
    for digit in 0..10 {
        if has_fresh(processes, 10 * front + digit) {
            return true;
        }
    }
    false
}

/// Whether the decimal of some process's number begins with the text, or is it.
pub fn begins_known(processes: &[Line], text: &[u8]) -> bool
    requires { All IsRightLine processes.now }
    ensures { IsTrue result ↔ BeginsOne (Contains (pids processes.now)) decimal text.now }
{
    if text.is_empty() {
        return !processes.is_empty();
    }
    match read_u32(text) {
        Some(0) => has_pid(processes, 0),
        Some(front) => has_front(processes, front),
        None => false,
    }
}

// Whether the decimal of some process's number begins with that of the front.
fn has_front(processes: &[Line], front: u32) -> bool
    requires { 0 < front }
    ensures { IsTrue result ↔ ((n : ℕ) × Contains (pids processes.now) n × IsFrontOf front n) }
{
    for process in processes {
        if is_front(front, process.pid) {
            return true;
        }
    }
    false
}

// Whether the decimal of the number begins with that of the front, or is it.
fn is_front(front: u32, number: u32) -> bool
    requires { 0 < front }
    ensures { IsTrue result ↔ IsFrontOf front number }
{
    if number < front {
        return false;
    }
    number == front || is_front(front, number / 10)
}
