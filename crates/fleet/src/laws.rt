ghost use Rattle.fleet.specs.Alone.{StandsAlone};

/// What a process has come to alone, once it was advanced so many times, is one thing. The function does nothing.
pub fn one_standing()
    ensures { StandsAlone }
{}
