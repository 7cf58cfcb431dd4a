use crate::links::Links;
use crate::place::Place;
use dm_base::OutOfMemory;
use std::alloc::Global;

// Notes that the function at the place waits for one more.
fn count_one(open: &mut [usize], place: usize) {
    if let Some(count) = open.get_mut(place) {
        *count = count.saturating_add(1);
    }
}

// Notes that the function at the place waits for that at the other.
fn wait(
    open: &mut [usize],
    above: &mut [Vec<usize>],
    place: usize,
    other: usize,
) -> Result<(), OutOfMemory> {
    if let Some(list) = above.get_mut(other) {
        list.push(place)?;
        count_one(open, place);
    }
    Ok(())
}

// Notes that the function at the place waits for those to which its calls lead.
fn wait_for_all(
    open: &mut [usize],
    above: &mut [Vec<usize>],
    links: &Links,
    place: usize,
) -> Result<(), OutOfMemory> {
    if let Some(function) = links.function(place) {
        for link in links.of(function) {
            if let Place::Entered(below) = link.place {
                wait(open, above, place, links.place(below))?;
            }
        }
    }
    Ok(())
}

// A function for which that at the place waits is in order: adds it, where it waits for nothing else.
fn release_one(
    order: &mut Vec<usize>,
    open: &mut [usize],
    place: usize,
) -> Result<(), OutOfMemory> {
    if let Some(count) = open.get_mut(place) {
        *count = count.saturating_sub(1);
        if *count == 0 {
            order.push(place)?;
        }
    }
    Ok(())
}

// The function at the place is in order: adds those that wait for nothing else.
fn release(
    order: &mut Vec<usize>,
    open: &mut [usize],
    above: &[Vec<usize>],
    place: usize,
) -> Result<(), OutOfMemory> {
    if let Some(list) = above.get(place) {
        for other in list {
            release_one(order, open, *other)?;
        }
    }
    Ok(())
}

// Adds the functions that wait for nothing.
fn begin(order: &mut Vec<usize>, open: &[usize]) -> Result<(), OutOfMemory> {
    for place in 0..open.len() {
        if open[place] == 0 {
            order.push(place)?;
        }
    }
    Ok(())
}

// Adds each function that waits for those alone that are in order.
fn release_all(
    order: &mut Vec<usize>,
    open: &mut [usize],
    above: &[Vec<usize>],
) -> Result<(), OutOfMemory> {
    let mut i = 0;
    while let Some(&next) = order.get(i) {
        release(order, open, above, next)?;
        i += 1;
    }
    Ok(())
}

// So many empty lists.
fn lists(alloc: Global, count: usize) -> Result<Vec<Vec<usize>>, OutOfMemory> {
    let mut lists = Vec::new(alloc);
    for _ in 0..count {
        lists.push(Vec::new(alloc))?;
    }
    Ok(lists)
}

// Adds the places in order. For each place it is told how many calls lead from it to functions that are not
// in order yet, none at first, and the places from which calls lead to it.
fn add_in_order(
    order: &mut Vec<usize>,
    open: &mut [usize],
    above: &mut [Vec<usize>],
    links: &Links,
) -> Result<(), OutOfMemory> {
    for place in 0..links.len() {
        wait_for_all(open, above, links, place)?;
    }
    begin(order, open)?;
    release_all(order, open, above)
}

// The places in order, of which the same is told.
fn places_in_order(
    alloc: Global,
    open: &mut [usize],
    above: &mut [Vec<usize>],
    links: &Links,
) -> Result<Vec<usize>, OutOfMemory> {
    let mut order = Vec::new(alloc);
    add_in_order(&mut order, open, above, links)?;
    Ok(order)
}

// The places of the entered functions from which no cycle of calls is reached, each after those of the
// functions to which its calls lead. Each call is gone along twice.
pub fn order(alloc: Global, links: &Links) -> Result<Vec<usize>, OutOfMemory> {
    let mut open = vec![in alloc; 0; links.len()]?;
    let mut above = lists(alloc, links.len())?;
    places_in_order(alloc, &mut open, &mut above, links)
}
