ghost use Rattle.std.specs.Prelude.{◌≡◌, ◌≢◌, ◌<◌, ◌≤◌, ℕ, List, [], ◌++◌, Contains, MatchOption, IfSome, IfNone, IfOk, IfErr, OnOk, Some, None, length, take, slice_get};
ghost use Rattle.std.specs.Option.{option_to_list};
ghost use Rattle.trace_file.specs.Pieces.{IsWhole, IsCut, IsShown, Takes, Shows, HasTaken};
ghost use Rattle.trace_file.specs.Held.{StandsFor};
ghost use Rattle.trace_file.specs.Trace.{longest};
ghost use Rattle.trace_file.specs.declared.error.TraceError.TheVariants.{OutOfMemory as NoMemory, TooLong as Long};

use crate::TraceError;
use dm_base::OutOfMemory;
use std::alloc::Global;
use std::marker::Model;

/// The greatest length of a text, in bytes: 64 MiB.
const LONGEST: usize = 67_108_864;

/// How far the lines of a file were read.
pub trait Place: Drop {
    ghost use Rattle.std.specs.Prelude.{◌≡◌, ℕ, List, IfOk, IfErr};
    ghost use Rattle.std.specs.Option.{option_to_list};
    ghost use Rattle.trace_file.specs.declared.error.TraceError.{TraceError};
    ghost use Rattle.trace_file.specs.declared.error.TraceError.TheVariants.{OutOfMemory};
    ghost use Rattle.trace_file.specs.Pieces.{IsWhole, Takes, Shows};

    /// What a line may give.
    type Item: Drop;

    /// What brings a place back to what it was.
    type Mark: Copy + Drop;

    /// The lines before this place are these, and they gave these items.
    ghost reaches: { Self → List ℕ → List Self.Item → Type 0 };

    /// Why a text is refused, and what this place then tells of it.
    ghost refuses: { Self → TraceError → List ℕ → Type 0 };

    /// By the mark the new place goes back to the old one.
    ghost marks: { Self.Mark → Self → Self → Type 0 };

    /// Takes the next line.
    fn read(&mut self, alloc: Global, line: &[u8]) -> Result<Option<Self::Item>, TraceError>
        requires { IsWhole line.now }
        ensures takes { IfOk result (λ given. Takes reaches self.old line.now (option_to_list given) self.new) }
        ensures shows { IfErr result (λ error. Shows reaches (refuses self.new) self.old error line.now) }
        ensures marks { (mark : Self.Mark) (first : Self) → marks mark first self.old → marks mark first self.new };

    /// A mark of this place.
    fn mark(&self) -> Self::Mark
        ensures { marks result self.now self.now };

    /// Goes back to the place of the mark.
    fn restore(&mut self, mark: Self::Mark)
        ensures { (first : Self) → marks mark first self.old → self.new ≡ first };

    /// Want of memory is told of every text.
    ghost memory: { (place : Self) (text : List ℕ) → refuses place OutOfMemory text };
}

/// The first line of a text and what follows it, where the text has a line feed.
fn whole_line(text: &[u8]) -> Option<(&[u8], &[u8])>
    ensures { MatchOption result (Contains text.now 10 → ⊥) (λ cut. IsCut text.now cut.0.now cut.1.now) }
{
    match feed_place(text) {
        Some(i) => Some(text.split_at(i + 1)),
        None => None,
    }
}

// The place of the first line feed.
fn feed_place(text: &[u8]) -> Option<usize>
    ensures there { IfSome result (λ i. slice_get text.now i ≡ Some 10) }
    ensures first { IfSome result (λ i. Contains (take i text.now) 10 → ⊥) }
    ensures none { IfNone result (Contains text.now 10 → ⊥) }
{
    text.iter().position(|b| *b == b'\n')
}

// Takes one line, and adds what it gives.
fn take_line<P: Place>(
    place: &mut P,
    alloc: Global,
    line: &[u8],
    items: &mut Vec<P::Item>,
) -> Result<(), TraceError>
    requires { IsWhole line.now }
    ensures takes { OnOk result (HasTaken P.reaches place.old line.now [] items.old.items items.new.items place.new) }
    ensures shows { IfErr result (λ error. Shows P.reaches (P.refuses place.new) place.old error line.now) }
    ensures marks { (mark : P.Mark) (first : P) → P.marks mark first place.old → P.marks mark first place.new }
{
    match place.read(alloc, line)? {
        Some(item) => {
            items.push(item)?;
            Ok(())
        }
        None => Ok(()),
    }
}

// Takes each line of the text that is whole, and gives what is left.
fn take_lines<'a, P: Place>(
    place: &mut P,
    alloc: Global,
    text: &'a [u8],
    items: &mut Vec<P::Item>,
) -> Result<&'a [u8], TraceError>
    ensures takes { IfOk result (λ rest. HasTaken P.reaches place.old text.now rest.now items.old.items items.new.items place.new) }
    ensures plain { IfOk result (λ rest. Contains rest.now 10 → ⊥) }
    ensures shows { IfErr result (λ error. Shows P.reaches (P.refuses place.new) place.old error text.now) }
    ensures marks { (mark : P.Mark) (first : P) → P.marks mark first place.old → P.marks mark first place.new }
{
    let mut rest = text;
    while let Some((line, after)) = whole_line(rest) {
        take_line(place, alloc, line, items)?;
        rest = after;
    }
    Ok(rest)
}

// The two texts, one after the other.
fn joined(alloc: Global, front: &[u8], back: &[u8]) -> Result<Vec<u8>, OutOfMemory>
    ensures { IfOk result (λ text. text.items ≡ front.now ++ back.now) }
{
    let mut text = Vec::from_slice(alloc, front)?;
    text.extend_from_slice(back)?;
    Ok(text)
}

// Takes the line that the unfinished one and the first part of a piece make.
fn take_first<P: Place>(
    place: &mut P,
    alloc: Global,
    tail: &[u8],
    first: &[u8],
    items: &mut Vec<P::Item>,
) -> Result<(), TraceError>
    requires plain { Contains tail.now 10 → ⊥ }
    requires first { IsWhole first.now }
    ensures takes { OnOk result (HasTaken P.reaches place.old (tail.now ++ first.now) [] items.old.items items.new.items place.new) }
    ensures shows { IfErr result (λ error. Shows P.reaches (P.refuses place.new) place.old error (tail.now ++ first.now)) }
    ensures marks { (mark : P.Mark) (first : P) → P.marks mark first place.old → P.marks mark first place.new }
{
    if tail.is_empty() {
        return take_line(place, alloc, first, items);
    }
    let line = joined(alloc, tail, first)?;
    take_line(place, alloc, &line, items)
}

// Takes that line and each whole one after it. Gives what the lines gave, and the bytes that are
// left.
fn take_from<P: Place>(
    place: &mut P,
    alloc: Global,
    tail: &[u8],
    first: &[u8],
    after: &[u8],
) -> Result<(Vec<P::Item>, Vec<u8>), TraceError>
    requires plain { Contains tail.now 10 → ⊥ }
    requires first { IsWhole first.now }
    ensures takes { IfOk result (λ taken. HasTaken P.reaches place.old (tail.now ++ first.now ++ after.now) taken.1.items [] taken.0.items place.new) }
    ensures plain { IfOk result (λ taken. Contains taken.1.items 10 → ⊥) }
    ensures shows { IfErr result (λ error. Shows P.reaches (P.refuses place.new) place.old error (tail.now ++ first.now ++ after.now)) }
    ensures marks { (mark : P.Mark) (first : P) → P.marks mark first place.old → P.marks mark first place.new }
{
    let mut items = Vec::new(alloc);
    take_first(place, alloc, tail, first, &mut items)?;
    let left = take_lines(place, alloc, after, &mut items)?;
    let tail = Vec::from_slice(alloc, left)?;
    Ok((items, tail))
}

// Takes the lines that the piece completes, and keeps what is left of it. Want of memory changes
// nothing.
fn take_piece<P: Place>(
    place: &mut P,
    alloc: Global,
    tail: &mut Vec<u8>,
    piece: &[u8],
) -> Result<Vec<P::Item>, TraceError>
    requires { Contains tail.old.items 10 → ⊥ }
    ensures takes { IfOk result (λ given. HasTaken P.reaches place.old (tail.old.items ++ piece.now) tail.new.items [] given.items place.new) }
    ensures plain { Contains tail.new.items 10 → ⊥ }
    ensures shows { IfErr result (λ error. Shows P.reaches (P.refuses place.new) place.old error (tail.old.items ++ piece.now)) }
    ensures memory { result ≡ Err NoMemory → (place.new ≡ place.old) × (tail.new.items ≡ tail.old.items) }
{
    match whole_line(piece) {
        None => {
            tail.extend_from_slice(piece)?;
            Ok(Vec::new(alloc))
        }
        Some((first, after)) => {
            let mark = place.mark();
            match take_from(place, alloc, tail, first, after) {
                Ok((items, left)) => {
                    *tail = left;
                    Ok(items)
                }
                Err(TraceError::OutOfMemory) => {
                    place.restore(mark);
                    Err(TraceError::OutOfMemory)
                }
                Err(error) => Err(error),
            }
        }
    }
}

/// A reader of a text that comes in pieces, line by line. It holds the unfinished line, and not the
/// text.
#[derive(Drop)]
pub struct Pieces<P> {
    place: P,
    tail: Vec<u8>,
    size: usize,
    refused: Option<TraceError>,
}

impl<P> Model for Pieces<P> {
    ghost use Rattle.std.specs.Prelude.{◌≤◌, Contains};
    ghost use Rattle.trace_file.specs.Held.{Held};

    ghost Value = { Held P };

    ghost view = { λ p. record { place = p.place; tail = p.tail.items; size = p.size; refused = p.refused } };

    ghost invariant = { λ p. (p.size ≤ 67108864) × (Contains p.tail.items 10 → ⊥) };
}

impl<P: Place> Pieces<P> {
    /// A reader that was given nothing.
    pub fn new(alloc: Global, place: P) -> Pieces<P>
        ensures { result ≡ record { place = place; tail = []; size = 0; refused = None } }
    {
        Pieces {
            place,
            tail: Vec::new(alloc),
            size: 0,
            refused: None,
        }
    }

    /// Takes the next piece, and gives what the lines that it completes give. It refuses a text once
    /// that is longer than 64 MiB. Want of memory changes nothing; after another refusal each call
    /// answers it again.
    pub fn feed(&mut self, alloc: Global, piece: &[u8]) -> Result<Vec<P::Item>, TraceError>
        ensures stands { IfOk result (λ given. (text : List ℕ) (items : List P.Item) → StandsFor P.reaches self.old text items → StandsFor P.reaches self.new (text ++ piece.now) (items ++ given.items)) }
        ensures memory { result ≡ Err NoMemory → self.new ≡ self.old }
        ensures refused { IfErr result (λ error. error ≢ NoMemory → self.new.refused ≡ Some error) }
        ensures again { (error : TraceError) → self.old.refused ≡ Some error → (result ≡ Err error) × (self.new ≡ self.old) }
        ensures long { (text : List ℕ) (items : List P.Item) → StandsFor P.reaches self.old text items → longest < length (text ++ piece.now) → (result ≡ Err Long) × (self.new.place ≡ self.old.place) }
        ensures shown { IfErr result (λ error. (text : List ℕ) (items : List P.Item) → StandsFor P.reaches self.old text items → IsShown (P.refuses self.new.place) error (text ++ piece.now)) }
    {
        if let Some(error) = self.refused {
            return Err(error);
        }
        if LONGEST - self.size < piece.len() {
            self.refused = Some(TraceError::TooLong);
            return Err(TraceError::TooLong);
        }
        match take_piece(&mut self.place, alloc, &mut self.tail, piece) {
            Ok(items) => {
                self.size += piece.len();
                Ok(items)
            }
            Err(TraceError::OutOfMemory) => Err(TraceError::OutOfMemory),
            Err(error) => {
                self.refused = Some(error);
                Err(error)
            }
        }
    }
    /// How far the text was read.
    pub fn place(&self) -> &P
        ensures { result.now ≡ self.now.place }
    {
        &self.place
    }

    /// How far the text was read, and its unfinished line. After a refusal it answers that.
    pub fn finish(self) -> Result<(P, Vec<u8>), TraceError>
        ensures place { IfOk result (λ parts. parts.0 ≡ self.place) }
        ensures tail { IfOk result (λ parts. parts.1.items ≡ self.tail) }
        ensures plain { IfOk result (λ parts. Contains parts.1.items 10 → ⊥) }
        ensures refused { IfErr result (λ error. self.refused ≡ Some error) }
        ensures unrefused { OnOk result (self.refused ≡ None) }
    {
        match self.refused {
            Some(error) => Err(error),
            None => Ok((self.place, self.tail)),
        }
    }
}
