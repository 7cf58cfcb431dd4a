ghost use Rattle.std.specs.Prelude.{List};
ghost use Rattle.dm_base.specs.declared.event.Event.{Event};
ghost use Rattle.dm_base.specs.Trace.{depth, IsGreatestExcess};

/// The law that `depth` is what its name says: the greatest excess of Pre over Post in any first
/// part of a trace. It does nothing.
pub fn depth_is_the_greatest_excess()
    ensures { (t : List Event) → IsGreatestExcess t (depth t) }
{}
