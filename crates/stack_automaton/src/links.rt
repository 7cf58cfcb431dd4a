ghost use Rattle.std.specs.Prelude.{◌≡◌, ◌⊎◌, ◌↔◌, ◌<◌, [], ◌∷◌, ◌++◌, ℕ, Contains, IfOk, OnOk, length, slice_get, nat_eq};
ghost use Rattle.std.specs.List.{position_or_len};
ghost use Rattle.std.specs.Map.{keys_of};
ghost use Rattle.stack_automaton.specs.declared.place.Link.{Link as Linked};
ghost use Rattle.stack_automaton.specs.Links.{HasLink, AddsLinks, HasOneMore, ArePlaced, functions_of};

use crate::place::Link;
use dm_base::OutOfMemory;
use smallvec::SmallVec;
use std::alloc::Global;
use std::collections::HashMap;

// So many calls of a function need no memory of their own.
const INLINE: usize = 1;

// A function, and the calls that enter it. Seen as both.
#[derive(Drop)]
struct Entered {
    function: u32,
    calls: SmallVec<Link, INLINE>,
}

impl std::marker::Model for Entered {
    ghost use Rattle.std.specs.Prelude.{ℕ, List};
    ghost use Rattle.stack_automaton.specs.declared.place.Link.{Link};

    ghost Value = { ℕ × List Link };

    ghost view = { λ e. (e.function, e.calls.items) };
}

impl Entered {
    // The function that this call enters.
    fn new(alloc: Global, function: u32, link: Link) -> Result<Entered, OutOfMemory>
        ensures { IfOk result (λ e. e ≡ (function, link ∷ [])) }
    {
        let mut calls = SmallVec::new(alloc);
        calls.push(link)?;
        Ok(Entered { function, calls })
    }

    // The function.
    fn function(&self) -> u32
        ensures { result ≡ self.now.0 }
    {
        self.function
    }

    // The calls.
    fn calls(&self) -> &[Link]
        ensures { result.now ≡ self.now.1 }
    {
        self.calls.as_slice()
    }

    // One more call enters it.
    fn add(&mut self, link: Link) -> Result<(), OutOfMemory>
        ensures function { self.new.0 ≡ self.old.0 }
        ensures calls { OnOk result (self.new.1 ≡ self.old.1 ++ link ∷ []) }
    {
        self.calls.push(link)?;
        Ok(())
    }
}

// The functions that are entered at an event, in the order in which they were found, and for each the
// calls that enter it.
pub struct Links {
    alloc: Global,
    lists: Vec<Entered>,
    // The place of each function in the list.
    places: HashMap<u32, usize>,
}

impl std::marker::Model for Links {
    ghost use Rattle.std.specs.Map.{keys_of};
    ghost use Rattle.stack_automaton.specs.Links.{Links as Listed, ArePlaced};

    ghost Value = { Listed };

    ghost view = { λ s. record { lists = s.lists.items } };

    ghost invariant = { λ s. ArePlaced s.places (keys_of s.lists.items) };
}

// Written, so that a function that drops one proves no more than a call of it.
impl Drop for Links {
    fn drop(self) {
        let Self {
            alloc: _,
            lists: _lists,
            places: _places,
        } = self;
    }
}

// One more call enters the function at the place.
fn put(lists: &mut Vec<Entered>, place: usize, link: Link) -> Result<(), OutOfMemory>
    requires { place < length lists.old.items }
    ensures functions { keys_of lists.new.items ≡ keys_of lists.old.items }
    ensures added { OnOk result (HasOneMore lists.old.items lists.new.items place link) }
{
    lists[place].add(link)
}

// Puts a function that isn't entered yet behind the others.
fn begin(
    lists: &mut Vec<Entered>,
    places: &mut HashMap<u32, usize>,
    entered: Entered,
) -> Result<(), OutOfMemory>
    requires placed { ArePlaced places.old (keys_of lists.old.items) }
    requires other { position_or_len (nat_eq entered.0) (keys_of lists.old.items) ≡ length (keys_of lists.old.items) }
    ensures begun { OnOk result (lists.new.items ≡ lists.old.items ++ entered ∷ []) }
    ensures placed { ArePlaced places.new (keys_of lists.new.items) }
{
    let function = entered.function();
    let place = lists.len();
    lists.push(entered)?;
    match places.insert(function, place) {
        Ok(_) => Ok(()),
        Err(refused) => {
            lists.pop();
            Err(OutOfMemory::from(refused))
        }
    }
}

impl Links {
    // No function is entered yet.
    pub fn new(alloc: Global) -> Links
        ensures { (f : ℕ) (l : Linked) → HasLink result f l → ⊥ }
    {
        Links {
            alloc,
            lists: Vec::new(alloc),
            places: HashMap::new(alloc),
        }
    }

    // No function is entered any more. The room stays.
    pub fn clear(&mut self)
        ensures { (f : ℕ) (l : Linked) → HasLink self.new f l → ⊥ }
    {
        self.lists.clear();
        self.places.clear();
    }

    // A call enters the function.
    pub fn add(&mut self, function: u32, link: Link) -> Result<(), OutOfMemory>
        ensures { OnOk result (AddsLinks self.old self.new (λ f l. (f ≡ function) × (l ≡ link))) }
    {
        match self.places.get(&function) {
            Some(place) => put(&mut self.lists, *place, link),
            None => {
                let entered = Entered::new(self.alloc, function, link)?;
                begin(&mut self.lists, &mut self.places, entered)
            }
        }
    }

    // How many functions are entered.
    pub fn len(&self) -> usize
        ensures { result ≡ length (functions_of self.now) }
    {
        self.lists.len()
    }

    // The function that was entered first, second and so on, by its place.
    pub fn function(&self, place: usize) -> Option<u32>
        ensures { result ≡ slice_get (functions_of self.now) place }
    {
        match self.lists.get(place) {
            Some(entered) => Some(entered.function()),
            None => None,
        }
    }

    // The place of the function, or the number of places where it isn't entered.
    pub fn place(&self, function: u32) -> usize
        ensures { result ≡ position_or_len (nat_eq function) (functions_of self.now) }
    {
        match self.places.get(&function) {
            Some(place) => *place,
            None => self.lists.len(),
        }
    }

    // The calls that enter the function.
    pub fn of(&self, function: u32) -> &[Link]
        ensures { (l : Linked) → Contains result.now l ↔ HasLink self.now function l }
    {
        match self.lists.get(self.place(function)) {
            Some(entered) => entered.calls(),
            None => &[],
        }
    }
}
