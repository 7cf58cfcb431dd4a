ghost use Rattle.std.specs.Prelude.{◌≡◌, ◌<◌, ℕ, ◌≢◌, List, None, length, slice_get, slice_index_or};
ghost use Rattle.c_tree.specs.declared.tree.TExpr.{TExpr as Tree};
ghost use Rattle.c_tree.specs.View.{exprs_of};
ghost use Rattle.c_tree.specs.Constants.{pattern_of};
ghost use Rattle.flow_graph.specs.Recorded.{recorded, entry_where};

use crate::constants::entry;
use c_tree::TExpr;
use dm_base::{Pattern, SysName};
use sys_table::{ArgKind, argument_kinds};

// The number of `read`, the call whose second argument is not recorded.
const READ: u8 = 0;

// Where the recorded argument with this number stands among the arguments.
fn place_of(name: SysName, i: usize) -> usize
    requires { i < 3 }
    ensures { (es : List Tree) → slice_get es result ≡ slice_get (recorded name es) i }
{
    if name.index() != READ {
        return i;
    }
    if i == 0 { 0 } else { i + 1 }
}

// The entry of the argument at this place.
fn entry_at(kind: ArgKind, arguments: &[TExpr], place: usize) -> Option<i64>
    ensures { result ≡ entry_where kind (slice_get arguments.now place) }
{
    if place < arguments.len() {
        return entry(kind, &arguments[place]);
    }
    None
}

// Says of the argument at this place, of which nothing was said, what is known of it.
fn note(pattern: &mut Pattern, i: u8, known: Option<i64>)
    requires inside { i < length pattern.old }
    requires open { slice_index_or pattern.old i None ≡ None }
    ensures many { length pattern.new ≡ length pattern.old }
    ensures here { slice_index_or pattern.new i None ≡ known }
    ensures others { (k : ℕ) → k ≢ i → slice_index_or pattern.new k None ≡ slice_index_or pattern.old k None }
{
    if let Some(number) = known {
        pattern.set(i, number);
    }
}

// The pattern of a direct call of a system call with these arguments.
pub fn pattern_of(name: SysName, arguments: &[TExpr]) -> Pattern
    ensures { result ≡ pattern_of name (exprs_of arguments.now) }
{
    let kinds = argument_kinds(name);
    let mut pattern = Pattern::any(kinds.len() as u8);
    for i in 0..kinds.len() {
        let known = entry_at(kinds[i], arguments, place_of(name, i));
        note(&mut pattern, i as u8, known);
    }
    pattern
}
