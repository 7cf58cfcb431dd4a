ghost use Rattle.std.specs.Prelude.{◌≡◌, ◌<◌, List, [], ◌∷◌, Some, length, slice_get, IfOk, OnOk};
ghost use Rattle.c_check_bodies.specs.Repeated.{AddsNumber, HasSeen, is_repeated};
ghost use Rattle.c_rules.specs.Statements.{are_distinct};
ghost use Rattle.c_tree.specs.declared.tree.TLabel.{TLabel};

use c_check_initialisers::number_of;
use c_tree::TLabel;
use dm_base::OutOfMemory;
use std::alloc::Global;
use std::collections::HashSet;

// The labels that were seen: the numbers of case values, and whether a default was among them.
#[derive(Drop)]
struct Seen {
    numbers: HashSet<i64>,
    default: bool,
}

// No label was seen.
fn nothing_seen(alloc: Global) -> Seen
    ensures { HasSeen result [] }
{
    Seen {
        numbers: HashSet::new(alloc),
        default: false,
    }
}

// Whether the label was seen before.
fn is_repeated(seen: &Seen, label: TLabel) -> bool
    ensures { (labels : List TLabel) → HasSeen seen.now labels → result ≡ is_repeated label labels }
{
    match label {
        TLabel::Case(value) => seen.numbers.contains(&number_of(value)),
        TLabel::Default => seen.default,
    }
}

// Notes the number of a case value.
fn note_number(numbers: &mut HashSet<i64>, number: i64) -> Result<(), OutOfMemory>
    ensures { OnOk result (AddsNumber numbers.old.keys number numbers.new.keys) }
{
    numbers.insert(number)?;
    Ok(())
}

// The labels that were seen with this one.
fn seen_with(seen: Seen, label: TLabel) -> Result<Seen, OutOfMemory>
    ensures { IfOk result (λ new. (labels : List TLabel) → HasSeen seen labels → HasSeen new (label ∷ labels)) }
{
    let Seen { numbers, default } = seen;
    match label {
        TLabel::Case(value) => {
            let mut all = numbers;
            note_number(&mut all, number_of(value))?;
            Ok(Seen {
                numbers: all,
                default,
            })
        }
        TLabel::Default => Ok(Seen {
            numbers,
            default: true,
        }),
    }
}

// The label at a place.
fn label_at(labels: &[TLabel], place: usize) -> TLabel
    requires { place < length labels.now }
    ensures { Some result ≡ slice_get labels.now place }
{
    labels[place]
}

/// Whether the case values are distinct, and at most one label is a default (C99 6.8.4.2 paragraph 3), found in a time that doesn't grow with
/// the square of their number.
pub fn are_distinct(alloc: Global, labels: &[TLabel]) -> Result<bool, OutOfMemory>
    ensures { IfOk result (λ distinct. distinct ≡ are_distinct labels.now) }
{
    let mut seen = nothing_seen(alloc);
    let mut left = labels.len();
    while left > 0 {
        left -= 1;
        let label = label_at(labels, left);
        if is_repeated(&seen, label) {
            return Ok(false);
        }
        seen = seen_with(seen, label)?;
    }
    Ok(true)
}
