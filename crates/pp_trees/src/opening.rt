//! The sentinels of a tree as its pool opens.

ghost use Rattle.std.specs.Prelude.{◌≡◌, ◌≤◌};
ghost use Rattle.pp_link.specs.Links.{word_of};
ghost use Rattle.pp_link.specs.Places.{field_number};
ghost use Rattle.pp_trees.specs.Trees.{root_head};
ghost use Rattle.pp_trees.specs.Sentinels.{sentinel_key, sentinel_left, sentinel_right, sentinel_field};

use pp_link::{Field, Link};

/// The least key of a sentinel; the other two are the next two.
pub const INF0: u64 = 18446744073709551613;

/// The word with which a field of a sentinel starts. The records 1 to 5 are the root R, its left child S, and the leaves
/// inf0, inf1 and inf2.
pub fn opening(number: u32, field: Field) -> u64
    requires { (1 ≤ number) × (number ≤ 5) }
    ensures { result ≡ sentinel_field number (field_number field) }
{
    match field {
        Field::Key => key(number),
        Field::Value => 0,
        Field::Left => left(number).word(),
        Field::Right => right(number).word(),
        Field::High => 0,
    }
}

/// The link with which a head starts: the first one leads to the root.
pub fn head(head: u32) -> Link
    ensures { word_of result ≡ root_head head }
{
    let number = if head == 0 { 1 } else { 0 };
    Link::pack(number, false, false, false, false)
}

/// The key of a sentinel.
fn key(number: u32) -> u64
    requires { (1 ≤ number) × (number ≤ 5) }
    ensures { result ≡ sentinel_key number }
{
    match number {
        3 => INF0,
        2 | 4 => INF0 + 1,
        _ => INF0 + 2,
    }
}

/// Its left link.
fn left(number: u32) -> Link
    requires { (1 ≤ number) × (number ≤ 5) }
    ensures { word_of result ≡ sentinel_left number }
{
    match number {
        1 => Link::pack(2, false, false, false, false),
        2 => Link::pack(3, false, false, false, true),
        _ => Link::pack(0, false, false, false, false),
    }
}

/// Its right link.
fn right(number: u32) -> Link
    requires { (1 ≤ number) × (number ≤ 5) }
    ensures { word_of result ≡ sentinel_right number }
{
    match number {
        1 => Link::pack(5, false, false, false, true),
        2 => Link::pack(4, false, false, false, true),
        _ => Link::pack(0, false, false, false, false),
    }
}
