ghost use Rattle.ref_machine.specs.Advancing.{AdvancesAreExact};

/// Whatever calls of `Machine::advance` have told, from `Machine::start` on, is what the run is (C99 5.1.2.3). The events so far begin the
/// trace of the run with the records so far and any further ones. The end is that of the run with the records so far, and
/// the events are then its whole trace; where the run did not end for want of a record, this holds with any further ones too, and
/// the end is told again and again. Before the end, a machine that is not waiting says that it needs a record exactly where the run
/// with the records so far ends for want of one after the events so far, and with one more it does not. The function does
/// nothing.
pub fn advances_are_exact()
    ensures { AdvancesAreExact }
{}
