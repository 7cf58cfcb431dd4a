ghost use Rattle.std.specs.Prelude.{◌≡◌, ◌≤◌, ◌<◌, ◌+◌, length};
ghost use Rattle.text_places.specs.Locations.{located};
ghost use Rattle.text_places.specs.Views.{location_of};

use crate::location::Location;
use crate::marker::{SourceLine, line_behind};
use std::marker::Model;

/// A reader of a text that says where its places stand.
#[derive(Drop)]
pub struct Locator<'a> {
    // the file of the first line
    first: &'a [u8],
    text: &'a [u8],
    // the line of what has been passed last, and where it begins
    here: SourceLine<'a>,
    begin: usize,
    // the bytes before this place have been passed
    seen: usize,
}

impl<'a> Model for Locator<'a> {
    ghost use Rattle.text_places.specs.Passing.{HasPassed, Passage};

    ghost Value = { Passage };

    ghost view = { λ l. record { file = l.first.now; text = l.text.now; passed = l.seen } };

    ghost invariant = { λ l. HasPassed l.first.now l.text.now l.here.file.now l.here.line l.begin l.seen };
}

impl<'a> Locator<'a> {
    ghost use Rattle.text_places.specs.Passing.{Passage};

    /// A reader that stands before the first byte of the text, whose first line is line 1 of the file.
    pub fn new(file: &'a [u8], text: &'a [u8]) -> Locator<'a>
        ensures file { result.file ≡ file.now }
        ensures text { result.text ≡ text.now }
        ensures passed { result.passed ≡ 0 }
    {
        Locator {
            first: file,
            text,
            here: SourceLine { file, line: 1 },
            begin: 0,
            seen: 0,
        }
    }

    /// Where the place stands; of a place past the text's end it is where the text ends. Where no place is below the one before,
    /// the text is passed once.
    pub fn at(&mut self, place: usize) -> Location<'a>
        ensures located { location_of result ≡ located self.old.file self.old.text place }
        ensures file { self.new.file ≡ self.old.file }
        ensures text { self.new.text ≡ self.old.text }
    {
        let end = place.min(self.text.len());
        self.go_back_to(end);
        for _ in self.passed()..end {
            self.pass();
        }
        self.here()
    }

    // How many bytes have been passed.
    fn passed(&self) -> usize
        ensures { result ≡ self.now.passed }
    {
        self.seen
    }

    // Begins anew where the place has been passed.
    fn go_back_to(&mut self, place: usize)
        ensures file { self.new.file ≡ self.old.file }
        ensures text { self.new.text ≡ self.old.text }
        ensures passed { self.new.passed ≤ place }
    {
        if place < self.seen {
            *self = Locator::new(self.first, self.text);
        }
    }

    // Passes one byte more.
    fn pass(&mut self)
        requires { self.old.passed < length self.old.text }
        ensures { self.new ≡ record self.old { passed = self.old.passed + 1 } }
    {
        if self.text[self.seen] == b'\n' {
            let next = line_behind(&self.here, &self.text[self.begin..self.seen]);
            self.here = next;
            self.begin = self.seen + 1;
            self.seen += 1;
            return;
        }
        self.seen += 1;
    }

    // Where the first byte stands that has not been passed.
    fn here(&self) -> Location<'a>
        ensures { location_of result ≡ located self.now.file self.now.text self.now.passed }
    {
        Location {
            file: self.here.file,
            line: self.here.line,
            column: (self.seen - self.begin) as u64 + 1,
        }
    }
}

/// Where a place of a text stands, whose first line is line 1 of the file: the line begins behind the last line feed before the
/// place, and of the lines before it a line marker line tells which line of which file is the next one. A place past the text's end
/// stands where the text ends.
pub fn locate<'a>(file: &'a [u8], text: &'a [u8], place: usize) -> Location<'a>
    ensures { location_of result ≡ located file.now text.now place }
{
    let mut locator = Locator::new(file, text);
    locator.at(place)
}
