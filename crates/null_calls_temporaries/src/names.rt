ghost use Rattle.std.specs.Prelude.{◌≡◌, ◌++◌, OnOk, IfOk};
ghost use Rattle.null_calls_laws.specs.Temporaries as names;
ghost use Rattle.null_calls_laws.specs.Temporaries.{digits_within, digits_of};

use dm_base::{Bytes, OutOfMemory};
use std::alloc::Global;

// How many digits a site or the number of an argument has at most.
const MOST_DIGITS: u8 = 10;

// Adds the last so many decimal digits of the number, without zeros before them.
fn push_digits(into: &mut Vec<u8>, most: u8, n: u64) -> Result<(), OutOfMemory>
    ensures { OnOk result (into.new.items ≡ into.old.items ++ digits_within most n) }
{
    if most == 0 {
        return Ok(());
    }
    if n < 10 {
        into.push(48 + n as u8)?;
        return Ok(());
    }
    push_digits(into, most - 1, n / 10)?;
    into.push(48 + (n % 10) as u8)?;
    Ok(())
}

fn push_number(into: &mut Vec<u8>, n: u64) -> Result<(), OutOfMemory>
    ensures { OnOk result (into.new.items ≡ into.old.items ++ digits_of n) }
{
    push_digits(into, MOST_DIGITS, n)
}

// The front, and the number of the site after it.
fn numbered(alloc: Global, front: &[u8], site: u32) -> Result<Vec<u8>, OutOfMemory>
    ensures { IfOk result (λ text. text.items ≡ front.now ++ digits_of site) }
{
    let mut text = Vec::new(alloc);
    text.extend_from_slice(front)?;
    push_number(&mut text, site as u64)?;
    Ok(text)
}

/// `__dyck_pre`, the null call before a marked call.
pub fn pre_name(alloc: Global) -> Result<Bytes, OutOfMemory>
    ensures { IfOk result (λ name. name ≡ names.pre_name) }
{
    Bytes::of(alloc, b"__dyck_pre")
}

/// `__dyck_post`, the null call after a marked call.
pub fn post_name(alloc: Global) -> Result<Bytes, OutOfMemory>
    ensures { IfOk result (λ name. name ≡ names.post_name) }
{
    Bytes::of(alloc, b"__dyck_post")
}

/// `__dyck_f` and the site, the temporary of the pointer that is called there.
pub fn designator_name(alloc: Global, site: u32) -> Result<Bytes, OutOfMemory>
    ensures { IfOk result (λ name. name ≡ names.designator_name site) }
{
    let text = numbered(alloc, b"__dyck_f", site)?;
    Bytes::of(alloc, &text)
}

/// `__dyck_a`, the site, `_` and the number of the argument, counted from 0: the argument's temporary.
pub fn argument_name(alloc: Global, site: u32, i: u64) -> Result<Bytes, OutOfMemory>
    ensures { IfOk result (λ name. name ≡ names.argument_name site i) }
{
    let mut text = numbered(alloc, b"__dyck_a", site)?;
    text.extend_from_slice(b"_")?;
    push_number(&mut text, i)?;
    Bytes::of(alloc, &text)
}

/// `__dyck_r` and the site, the temporary of the result.
pub fn result_name(alloc: Global, site: u32) -> Result<Bytes, OutOfMemory>
    ensures { IfOk result (λ name. name ≡ names.result_name site) }
{
    let text = numbered(alloc, b"__dyck_r", site)?;
    Bytes::of(alloc, &text)
}
