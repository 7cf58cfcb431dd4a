ghost use Rattle.std.specs.Prelude.{◌≡◌};
ghost use Rattle.fleet_schedule.specs.ScheduleText.{IsFileName};

use dm_base::Bytes;

/// The name of a file that stands in a schedule.
pub fn name_of(bytes: &Bytes) -> &str
    requires { IsFileName bytes.now }
    ensures { result.now ≡ bytes.now }
{
    match str::from_utf8(bytes.as_slice()) {
        Ok(name) => name,
        Err(_) => unreachable!(),
    }
}
