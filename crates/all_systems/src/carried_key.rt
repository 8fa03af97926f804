//! Carried records in the order of a merged file.

ghost use Rattle.std.specs.Prelude.{◌≡◌, ◌+◌, ◌*◌, ◌≤◌, IfOk, Ok, Some, get_or, length, pos};
ghost use Rattle.std.proofs.Common.{refl};
ghost use Rattle.std.specs.Cmp.Lexicographic.{lists_total, on_texts, slice_cmp};
ghost use Rattle.std.specs.Cmp.{eq_by_cmp_equiv, int_cmp_total, on_total, then_total};
ghost use Rattle.std.specs.Cmp.{partial_equiv_from_equiv, partial_order_from_agreeing_total};
ghost use Rattle.std.specs.Ordering.{int_cmp, is_eq, is_lt};
ghost use Rattle.nav_io.specs.Writes.{Writes};
ghost use Rattle.rinex_read.specs.Judging.{moment_at};
ghost use Rattle.rinex_read.specs.Lines.{columns};
ghost use Rattle.all_systems.specs.CarriedOrder.{by_text, carried_front, front_by, kept_record};
ghost use Rattle.all_systems.specs.CarriedOrder.{letter_place, message_place, type_place};
ghost use Rattle.all_systems.specs.Merging.{record_part};
ghost use Rattle.all_systems.specs.Selecting.{digit};

use crate::select::digit;
use nav_eph::Moment;
use nav_io::{Failed, Sink};
use nav_lists::Ranked;
use rinex_lines::record_text;
use rinex_read::{columns, read_row_lines};
use rinex_write::{Column, RecordLayout};
use std::alloc::{AllocError, Global};
use std::cmp::Ordering;
use std::marker::Model;
use streams::Target;

// A line with a date and nothing else that is read.
static NO_COLUMNS: [Column; 0] = [];

static DATE_ROWS: [usize; 1] = [0];

// What comes first of a record whose date cannot be read.
const UNDATED: [i64; 5] = [-1, 0, 0, 0, 0];

// The place of a type of record.
fn type_place(name: &[u8]) -> u64
    ensures place { result ≡ type_place name.now }
    ensures few { result ≤ 28 }
{
    if name == b"EPH".as_slice() {
        return 0;
    }
    if name == b"ION".as_slice() {
        return 7;
    }
    if name == b"STO".as_slice() {
        return 14;
    }
    if name == b"EOP".as_slice() {
        return 21;
    }
    28
}

// The place of a system.
fn letter_place(letter: u8) -> u64
    ensures place { result ≡ letter_place letter }
    ensures few { result ≤ 6 }
{
    if letter == b'G' {
        return 0;
    }
    if letter == b'E' {
        return 1;
    }
    if letter == b'R' {
        return 2;
    }
    if letter == b'C' {
        return 3;
    }
    if letter == b'J' {
        return 4;
    }
    if letter == b'I' {
        return 5;
    }
    6
}

// The place of a message type that begins so.
fn message_place(letter: u8) -> i64
    ensures { result ≡ message_place letter }
{
    if letter == b'C' { -1 } else { 255 }
}

// The place of the type and the system of a title.
fn place_in(title: &[u8; 80]) -> i64
    ensures { result
        ≡ pos (type_place (columns 2 3 title.now) + letter_place (get_or title.now 6 32)) }
{
    let place = type_place(columns(title, 2, 3)) + letter_place(title[6]);
    place as i64
}

// The number of the satellite of a title.
fn satellite_in(title: &[u8; 80]) -> i64
    ensures { result ≡ pos (10 * digit (get_or title.now 7 32) + digit (get_or title.now 8 32)) }
{
    let number = 10 * digit(title[7]) + digit(title[8]);
    number as i64
}

// What comes first of a record with this title at this moment.
fn dated_front(title: &[u8; 80], moment: Moment) -> [i64; 5]
    ensures { result ≡ front_by title.now (Ok moment) }
{
    [
        moment.value() as i64,
        place_in(title),
        satellite_in(title),
        message_place(title[10]),
        0,
    ]
}

// What comes first of a record with this title and this first line.
fn front_by(title: &[u8; 80], line: &[u8; 80]) -> [i64; 5]
    ensures { result ≡ front_by title.now (moment_at line.now) }
{
    let layout = RecordLayout {
        columns: &NO_COLUMNS,
        rows: &DATE_ROWS,
    };
    let lines = [*line];
    match read_row_lines(&layout, &lines) {
        Ok(said) => dated_front(title, said.moment),
        Err(_) => UNDATED,
    }
}

// What comes first of the lines of a record.
fn carried_front(lines: &[[u8; 80]]) -> [i64; 5]
    ensures { result ≡ carried_front lines.now }
{
    match lines {
        [title, first, ..] => front_by(title, first),
        _ => UNDATED,
    }
}

// A carried record, compared by what comes first and by its text.
#[derive(Drop)]
pub(crate) struct CarriedKey {
    front: [i64; 5],
    text: Vec<u8>,
}

impl Model for CarriedKey {
    ghost use Rattle.all_systems.specs.CarriedOrder.{CarriedRecord};

    ghost Value = { CarriedRecord };

    ghost view = { λ k. record { front = k.front; text = k.text.items } };
}

impl CarriedKey {
    // That of the lines of a record.
    pub(crate) fn new(alloc: Global, lines: &[[u8; 80]]) -> Result<CarriedKey, AllocError>
        requires { length lines.now ≤ 12 }
        ensures { IfOk result (λ key. key ≡ kept_record lines.now) }
    {
        Ok(CarriedKey {
            front: carried_front(lines),
            text: Vec::from_slice(alloc, record_text(lines).as_slice())?,
        })
    }

    // It comes before what has this front.
    pub(crate) fn is_before(&self, front: &[i64; 5]) -> bool
        ensures { result ≡ is_lt (slice_cmp int_cmp self.now.front front.now) }
    {
        self.front.cmp(front).is_lt()
    }

    // Writes its text, if it has one in the output format.
    pub(crate) fn write<T: Sink>(&self, to: &Target, out: &mut T) -> Result<(), Failed>
        ensures { Writes (T.written out.old) (T.written out.new)
            (T.faults out.old) (T.faults out.new)
            result (record_part to.now self.now) }
    {
        match to {
            Target::Rinex(_) => out.write(self.text.as_slice()),
            _ => Ok(()),
        }
    }
}

// Compares records by what comes first, and those that are equal in it by their texts.
fn compare(a: &CarriedKey, b: &CarriedKey) -> Ordering
    ensures { result ≡ by_text a.now b.now }
{
    let order = a.front.cmp(&b.front);
    match order {
        Ordering::Less => order,
        Ordering::Equal => a.text.as_slice().cmp(b.text.as_slice()),
        Ordering::Greater => order,
    }
}

impl PartialEq for CarriedKey {
    ghost eq = { λ a b. is_eq (by_text a b) };

    ghost laws = { partial_equiv_from_equiv (eq_by_cmp_equiv (then_total
        (on_total (λ x. x.front) (lists_total int_cmp_total)) (on_texts (λ x. x.text)))) };

    fn eq(&self, other: &CarriedKey) -> bool {
        compare(self, other).is_eq()
    }
}

impl Eq for CarriedKey {
    ghost laws = { eq_by_cmp_equiv (then_total
        (on_total (λ x. x.front) (lists_total int_cmp_total)) (on_texts (λ x. x.text))) };
}

impl PartialOrd for CarriedKey {
    ghost partial_cmp = { λ a b. Some (by_text a b) };

    ghost laws = { partial_order_from_agreeing_total (λ a b. by_text a b)
        (then_total (on_total (λ x. x.front) (lists_total int_cmp_total)) (on_texts (λ x. x.text)))
        (λ a b. refl) (λ a b. refl) };

    fn partial_cmp(&self, other: &CarriedKey) -> Option<Ordering> {
        Some(compare(self, other))
    }
}

impl Ord for CarriedKey {
    ghost cmp = { λ a b. by_text a b };

    ghost total = { then_total (on_total (λ x. x.front) (lists_total int_cmp_total))
        (on_texts (λ x. x.text)) };

    ghost matches_partial_cmp = { λ a b. refl };

    ghost matches_eq = { λ a b. refl };

    fn cmp(&self, other: &CarriedKey) -> Ordering {
        compare(self, other)
    }
}

// Those of one rank are equal.
impl Ranked for CarriedKey {
    ghost choice = { λ a b. by_text a b };

    ghost choice_total = { then_total (on_total (λ x. x.front) (lists_total int_cmp_total))
        (on_texts (λ x. x.text)) };

    fn choice(&self, other: &CarriedKey) -> Ordering {
        compare(self, other)
    }
}
