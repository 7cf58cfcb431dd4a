ghost use Rattle.text_places.specs.Locations.{LocationsArePlaces};
ghost use Rattle.text_places.specs.Markers.{MarkersAreTold};

/// A line marker line is told as what it is, and no other line is.
pub fn marker_lines()
    ensures { MarkersAreTold }
{}

/// Where the text has no line marker line, a file, a line and a column are those of one place.
pub fn locations_are_places()
    ensures { LocationsArePlaces }
{}
