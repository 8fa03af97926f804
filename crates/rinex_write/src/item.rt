//! The records of items.

ghost use Rattle.std.specs.Prelude.{◌≡◌, ◌≤◌, ◌∷◌, ◌++◌, map};
ghost use Rattle.std.specs.Prelude.{[], length, drop};
ghost use Rattle.nav_io.specs.Writes.{Writes};
ghost use Rattle.nav_eph.specs.Ranges.{HasGalRanges, HasGpsRanges, HasIonRanges};
ghost use Rattle.nav_eph.specs.declared.items.NavItem.TheVariants.{Gps, Gal, Ion};
ghost use Rattle.rinex_write.specs.Columns.{joined_rows};
ghost use Rattle.rinex_write.specs.Fields.{epoch_of, gps_epoch, galileo_epoch};
ghost use Rattle.rinex_write.specs.Fields.{gps_fields, galileo_fields};
ghost use Rattle.rinex_write.specs.Fields.{gps_ionosphere_fields, galileo_ionosphere_fields};
ghost use Rattle.rinex_write.specs.Layouts.{Kind};
ghost use Rattle.rinex_write.specs.Mirrors.{AreReady, IsTable};
ghost use Rattle.rinex_write.specs.Texts.{body_lines, item_lines};
ghost use Rattle.rinex_write.specs.Texts.{record_lines, satellite_text, text_of, title_line};

use crate::fields::{galileo_fields, galileo_ionosphere_fields, gps_fields, gps_ionosphere_fields};
use crate::layouts::{
    RecordLayout, galileo_ionosphere_layout, galileo_layout, gps_ionosphere_layout, gps_layout,
};
use crate::record::{Record, append, append_table, date_columns, satellite_columns};
use nav_eph::{
    GalEph, GpsEph, IonContent, IonEph, Moment, NavItem, Sat, Second, civil, nearest_moment,
};
use nav_io::{Failed, Sink};

// Record type and message type in the title of a kind of record.
#[derive(Clone, Copy)]
struct Title {
    class: [u8; 3],
    message: [u8; 4],
}

// toc of a GPS ephemeris as GPS time in seconds since the GPS epoch.
fn gps_epoch(e: &GpsEph) -> Moment
    ensures { result ≡ gps_epoch e.now }
{
    let week = u64::from(e.toe_week.value());
    let toe = Moment::from_seconds(604_800 * week + 16 * e.a.toe.value());
    nearest_moment(toe, Second::from_number((16 * e.clock.toc.value()) as u32))
}

// toc of a Galileo ephemeris as GPS time in seconds since the GPS epoch.
fn galileo_epoch(e: &GalEph) -> Moment
    ensures { result ≡ galileo_epoch e.now }
{
    let week = u64::from(e.toe_week.value());
    let toe = Moment::from_seconds(604_800 * week + 60 * e.w1.toe.value());
    nearest_moment(toe, Second::from_number((60 * e.w4.toc.value()) as u32))
}

/// The epoch of an ephemeris in its record, toc as GPS time; `None` for an ionosphere.
pub fn epoch_of(item: &NavItem) -> Option<Moment>
    ensures { result ≡ epoch_of item.now }
{
    match item {
        NavItem::Gps(e) => Some(gps_epoch(e)),
        NavItem::Gal(e) => Some(galileo_epoch(e)),
        NavItem::Ion(_) => None,
    }
}

// Appends the title of a record.
fn append_title(text: &mut Record, title: &Title, sat: &Sat)
    requires { text.old.items ≡ [] }
    ensures items { (k : Kind) → title.now.class ≡ k.class → title.now.message ≡ k.message
        → text.new.items ≡ title_line k sat.now ++ 10 ∷ [] }
    ensures short { length text.new.items ≤ 15 }
{
    append(text, b"> ");
    append(text, &title.class);
    append(text, b" ");
    append(text, &satellite_columns(sat));
    append(text, b" ");
    append(text, &title.message);
    append(text, b"\n");
}

// Appends the lines of a record; nothing stands before it.
fn append_record(
    text: &mut Record,
    title: &Title,
    sat: &Sat,
    four: &[u8; 4],
    moment: Moment,
    layout: &RecordLayout,
    fields: &[i64],
)
    requires empty { text.old.items ≡ [] }
    requires table { IsTable layout.now.rows.now layout.now.columns.now }
    requires ready { AreReady layout.now.columns.now fields.now }
    ensures { (k : Kind) → title.now.class ≡ k.class → title.now.message ≡ k.message
        → layout.now.columns.now ≡ joined_rows k.rows → layout.now.rows.now ≡ map length k.rows
        → text.new.items ≡ text_of (record_lines k sat.now four.now moment fields.now) }
{
    append_title(text, title, sat);
    append(text, four);
    append(text, &date_columns(&civil(moment)));
    append_table(text, layout, fields);
}

// The four columns before the date of an ephemeris.
fn satellite_start(sat: &Sat) -> [u8; 4]
    ensures { result ≡ satellite_text sat.now ++ 32 ∷ [] }
{
    let [letter, tens, ones] = satellite_columns(sat);
    [letter, tens, ones, b' ']
}

const GPS: Title = Title {
    class: *b"EPH",
    message: *b"LNAV",
};

const GALILEO: Title = Title {
    class: *b"EPH",
    message: *b"INAV",
};

const GPS_IONOSPHERE: Title = Title {
    class: *b"ION",
    message: *b"LNAV",
};

const GALILEO_IONOSPHERE: Title = Title {
    class: *b"ION",
    message: *b"IFNV",
};

// Appends the record of a GPS ephemeris; nothing stands before it.
fn append_gps(text: &mut Record, e: &GpsEph)
    requires empty { text.old.items ≡ [] }
    requires ranges { HasGpsRanges e.now }
    ensures { text.new.items ≡ text_of (item_lines (Gps e.now)) }
{
    let start = satellite_start(&e.sat);
    let fields = gps_fields(e);
    append_record(
        text,
        &GPS,
        &e.sat,
        &start,
        gps_epoch(e),
        &gps_layout(),
        &fields,
    );
}

// Appends the record of a Galileo ephemeris; nothing stands before it.
fn append_galileo(text: &mut Record, e: &GalEph)
    requires empty { text.old.items ≡ [] }
    requires ranges { HasGalRanges e.now }
    ensures { text.new.items ≡ text_of (item_lines (Gal e.now)) }
{
    let start = satellite_start(&e.sat);
    let fields = galileo_fields(e);
    append_record(
        text,
        &GALILEO,
        &e.sat,
        &start,
        galileo_epoch(e),
        &galileo_layout(),
        &fields,
    );
}

// Appends the record of an ionosphere; nothing stands before it.
fn append_ionosphere(text: &mut Record, e: &IonEph)
    requires empty { text.old.items ≡ [] }
    requires ranges { HasIonRanges e.now }
    ensures { text.new.items ≡ text_of (item_lines (Ion e.now)) }
{
    match &e.content {
        IonContent::Gps(i) => {
            let fields = gps_ionosphere_fields(i);
            append_record(
                text,
                &GPS_IONOSPHERE,
                &e.sat,
                b"    ",
                e.moment,
                &gps_ionosphere_layout(),
                &fields,
            );
        }
        IonContent::Gal(i) => {
            let fields = galileo_ionosphere_fields(i);
            append_record(
                text,
                &GALILEO_IONOSPHERE,
                &e.sat,
                b"    ",
                e.moment,
                &galileo_ionosphere_layout(),
                &fields,
            );
        }
    }
}

// Appends the record of an item; nothing stands before it.
fn append_item(text: &mut Record, item: &NavItem)
    requires { text.old.items ≡ [] }
    ensures { text.new.items ≡ text_of (item_lines item.now) }
{
    item.ranges();
    match item {
        NavItem::Gps(e) => append_gps(text, e),
        NavItem::Gal(e) => append_galileo(text, e),
        NavItem::Ion(e) => append_ionosphere(text, e),
    }
}

/// Appends the record of an item to a sink: its title, as `> EPH G05 LNAV`, and the
/// lines of its numbers (RINEX 4.01, GPS LNAV and Galileo INAV navigation records).
///
/// Angles are written in radians, times in seconds, lengths in metres, accuracies in metres by
/// their nominal value, the fit interval in hours, the transmission time from the start of the week
/// of toe, 999,900,000 if it is unknown. The epoch of an ephemeris is toc, at most half a week from
/// toe.
///
/// # Errors
///
/// `Failed` only if the sink's count of errors rose in this call or is at its maximum; a prefix of
/// the record was appended then.
pub fn write_item<T: Sink>(item: &NavItem, out: &mut T) -> Result<(), Failed>
    ensures { Writes (T.written out.old) (T.written out.new) (T.faults out.old) (T.faults out.new)
        result (text_of (item_lines item.now)) }
{
    let mut text = Record::new();
    append_item(&mut text, item);
    out.write(&text)
}

// The length in bytes of the first line of a record, with its LF.
const TITLE_LINE: usize = 15;

// Appends the record of an item, whose first line has this length; nothing stands before it.
fn append_titled(text: &mut Record, item: &NavItem)
    requires { text.old.items ≡ [] }
    ensures title { 15 ≤ length text.new.items }
    ensures body { drop 15 text.new.items ≡ text_of (body_lines item.now) }
{
    append_item(text, item);
}

/// Appends the record of an item without its title line to a sink: the record as in
/// RINEX 3 (RINEX 3.05, GPS and Galileo navigation message files). The lines are those of
/// [`write_item`].
///
/// # Errors
///
/// `Failed` only if the sink's count of errors rose in this call or is at its maximum; a prefix of
/// these lines was appended then.
pub fn write_body<T: Sink>(item: &NavItem, out: &mut T) -> Result<(), Failed>
    ensures { Writes (T.written out.old) (T.written out.new) (T.faults out.old) (T.faults out.new)
        result (text_of (body_lines item.now)) }
{
    let mut text = Record::new();
    append_titled(&mut text, item);
    out.write(&text[TITLE_LINE..])
}
