ghost use Rattle.std.specs.Prelude.{◌≡◌, ◌∷◌, ◌++◌, IfOk, OnOk, codes, decimal};
ghost use Rattle.tool_reading.specs.Depth.{depth_text, site_words};

use dm_base::OutOfMemory;
use inline_model::Depth;
use line_text::{push_bytes, push_decimal};
use std::alloc::Global;

// Puts a space and a number behind the text.
fn push_site(alloc: Global, text: &mut Vec<u8>, site: u32) -> Result<(), OutOfMemory>
    ensures { OnOk result (text.new.items ≡ text.old.items ++ 32 ∷ decimal site) }
{
    push_bytes(text, b" ")?;
    push_decimal(alloc, text, u64::from(site))
}

// Puts each site behind the text, with a space before it.
fn push_sites(alloc: Global, text: &mut Vec<u8>, sites: &[u32]) -> Result<(), OutOfMemory>
    ensures { OnOk result (text.new.items ≡ text.old.items ++ site_words sites.now) }
{
    for site in sites {
        push_site(alloc, text, *site)?;
    }
    Ok(())
}

// The line of a greatest depth.
fn greatest_line(alloc: Global, greatest: u32) -> Result<Vec<u8>, OutOfMemory>
    ensures { IfOk result (λ text. text.items ≡ codes "depth " ++ (decimal greatest ++ codes "\n")) }
{
    let mut text = b"depth ".as_slice().to_vec(alloc)?;
    push_decimal(alloc, &mut text, u64::from(greatest))?;
    push_bytes(&mut text, b"\n")?;
    Ok(text)
}

// The line of sites that end in a cycle.
fn unbounded_line(alloc: Global, first: &[u32], cycle: &[u32]) -> Result<Vec<u8>, OutOfMemory>
    ensures { IfOk result (λ text. text.items ≡ codes "unbounded" ++ (site_words first.now ++ (codes " cycle" ++ (site_words cycle.now ++ codes "\n")))) }
{
    let mut text = b"unbounded".as_slice().to_vec(alloc)?;
    push_sites(alloc, &mut text, first)?;
    push_bytes(&mut text, b" cycle")?;
    push_sites(alloc, &mut text, cycle)?;
    push_bytes(&mut text, b"\n")?;
    Ok(text)
}

/// The line of a depth.
pub fn depth_line(alloc: Global, depth: &Depth) -> Result<Vec<u8>, OutOfMemory>
    ensures { IfOk result (λ text. text.items ≡ depth_text depth.now) }
{
    match depth {
        Depth::Greatest(greatest) => greatest_line(alloc, *greatest),
        Depth::Unbounded { first, cycle } => {
            unbounded_line(alloc, first.as_slice(), cycle.as_slice())
        }
    }
}
