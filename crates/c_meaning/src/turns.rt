ghost use Rattle.c_meaning.specs.Turns.{TurnsAreEnough};

/// As many turns as are left are enough for what is left of a run, so more of them change nothing of it.
pub fn turns_are_enough()
    ensures { TurnsAreEnough }
{}
