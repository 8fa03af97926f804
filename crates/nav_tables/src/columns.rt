ghost use Rattle.std.specs.Prelude.{◌≡◌, ◌+◌, ◌/◌, ◌%◌, ◌++◌, ◌≤◌, ◌<◌, ◌^◌, IsTrue, length, pos};
ghost use Rattle.std.specs.Prelude.{unsigned_abs};
ghost use Rattle.nav_tables.specs.Links.{AreFit, IsFit, PartsFit, are_links, are_parts, column_of};
ghost use Rattle.nav_tables.specs.Links.{columns_of, filled, filled_by, is_link, joined, split};
ghost use Rattle.nav_tables.specs.Links.{AreSmall, width_of};

use crate::link::{Link, Part};
use arrayvec::ArrayVec;

// The numbers of fields, side by side.
#[tactic(auto, unfolding(crate::specs::Links::joined))]
fn joined(parts: &[Part], numbers: &[i64]) -> u64
    requires parts { IsTrue (are_parts (length numbers.now) parts.now) }
    requires fit { PartsFit parts.now numbers.now }
    ensures value { result ≡ joined parts.now numbers.now }
    ensures few { result < 2 ^ width_of parts.now }
    ensures most { result < 2 ^ 32 }
{
    match parts {
        [] => 0,
        [part, rest @ ..] => { ((numbers[part.field] as u64) << part.low) + joined(rest, numbers) }
    }
}

// The column of a link.
fn column_of(link: &Link, parts: &[Part], numbers: &[i64], given: &[i64]) -> i64
    requires link { IsTrue (is_link (length numbers.now) parts.now link.now) }
    requires given { length given.now ≡ 4 }
    requires fit { IsFit parts.now link.now numbers.now }
    ensures { result ≡ column_of parts.now link.now numbers.now given.now }
{
    match *link {
        Link::Field { field } => numbers[field],
        Link::Opposite { field } => -numbers[field],
        Link::Raised { field, plus } => numbers[field] + plus,
        Link::Parts { first, count } => joined(&parts[first..first + count], numbers) as i64,
        Link::Given { place } => given[place],
        Link::Fixed { number } => number,
    }
}

// Appends the columns of links.
#[tactic(auto, unfolding(crate::specs::Links::columns_of))]
fn push_columns(
    links: &[Link],
    parts: &[Part],
    numbers: &[i64],
    given: &[i64],
    columns: &mut ArrayVec<i64, 29>,
)
    requires links { IsTrue (are_links (length numbers.now) parts.now links.now) }
    requires room { length columns.old.items + length links.now ≤ 29 }
    requires given { length given.now ≡ 4 }
    requires fit { AreFit parts.now links.now numbers.now }
    ensures { columns.new.items
        ≡ columns.old.items ++ columns_of parts.now links.now numbers.now given.now }
{
    if let [link, rest @ ..] = links {
        columns.push(column_of(link, parts, numbers, given));
        push_columns(rest, parts, numbers, given, columns);
    }
}

/// The columns of a record by the numbers of its message; `given` are the numbers that no field has
/// alone.
pub fn columns_of(
    links: &[Link],
    parts: &[Part],
    numbers: &[i64],
    given: &[i64],
) -> ArrayVec<i64, 29>
    requires links { IsTrue (are_links (length numbers.now) parts.now links.now) }
    requires few { length links.now ≤ 29 }
    requires given { length given.now ≡ 4 }
    requires fit { AreFit parts.now links.now numbers.now }
    ensures { result.items ≡ columns_of parts.now links.now numbers.now given.now }
{
    let mut columns = ArrayVec::new();
    push_columns(links, parts, numbers, given, &mut columns);
    columns
}

// The number of a part in the bits of a column.
fn part_of(bits: u64, part: &Part) -> i64
    requires { part.now.width + part.now.low ≤ 32 }
    ensures { result ≡ pos (bits / 2 ^ part.now.low % 2 ^ part.now.width) }
{
    ((bits >> part.low) % (1 << part.width)) as i64
}

// Writes the numbers of parts.
#[tactic(auto, unfolding(crate::specs::Links::split))]
fn split(parts: &[Part], bits: u64, numbers: &mut [i64])
    requires parts { IsTrue (are_parts (length numbers.old) parts.now) }
    ensures value { numbers.new ≡ split parts.now bits numbers.old }
    ensures count { length numbers.new ≡ length numbers.old }
{
    if let [part, rest @ ..] = parts {
        numbers[part.field] = part_of(bits, part);
        split(rest, bits, numbers);
    }
}

// Writes what a column says.
fn fill(link: &Link, parts: &[Part], column: i64, numbers: &mut [i64])
    requires link { IsTrue (is_link (length numbers.old) parts.now link.now) }
    requires small { unsigned_abs column < 2 ^ 33 }
    ensures value { numbers.new ≡ filled_by parts.now link.now column numbers.old }
    ensures count { length numbers.new ≡ length numbers.old }
{
    match *link {
        Link::Field { field } => numbers[field] = column,
        Link::Opposite { field } => numbers[field] = -column,
        Link::Raised { field, plus } => numbers[field] = column - plus,
        Link::Parts { first, count } => {
            split(&parts[first..first + count], column.unsigned_abs(), numbers)
        }
        Link::Given { .. } => {}
        Link::Fixed { .. } => {}
    }
}

/// Writes what the columns of a record have of the numbers of its message; the others stay.
#[tactic(auto, unfolding(crate::specs::Links::filled))]
pub fn fill_numbers(links: &[Link], parts: &[Part], columns: &[i64], numbers: &mut [i64])
    requires links { IsTrue (are_links (length numbers.old) parts.now links.now) }
    requires columns { length columns.now ≡ length links.now }
    requires small { AreSmall columns.now }
    ensures value { numbers.new ≡ filled parts.now links.now columns.now numbers.old }
    ensures count { length numbers.new ≡ length numbers.old }
{
    if let ([link, links_left @ ..], [column, columns_left @ ..]) = (links, columns) {
        fill(link, parts, *column, numbers);
        fill_numbers(links_left, parts, columns_left, numbers);
    }
}
