//! A navigation file, read as a set of items.

ghost use Rattle.std.specs.Prelude.{◌≡◌, ◌+◌, ◌^◌, ◌<◌, ◌∷◌, []};
ghost use Rattle.std.specs.Prelude.{IfErr, IfOk, IfSome, IsErr, IsErrOf, IsTrue, OnOk};
ghost use Rattle.one_run.specs.Causes.{HasItsCause, fault_by, faults_of};
ghost use Rattle.rinex_read.specs.Files.{file_reads};
ghost use Rattle.rinex_read.specs.States.{GivesRead, IsNew, PassesHeader};
ghost use Rattle.rinex_read.specs.declared.judged.HeaderState.TheVariants.{Passed};
ghost use Rattle.nav_files.specs.DiffMirrors.{BreaksAfter, NoHeader, ReadsAll};
ghost use Rattle.nav_files.specs.DiffMirrors.{counted, item_in, sum_of, with_items};
ghost use Rattle.nav_files.specs.Reading.{IsFile, IsTooLong, compared, counts_of};
ghost use Rattle.nav_files.specs.Reading.{is_ephemeris, is_ionosphere};

use crate::diff_counts::ReadCounts;
use crate::file_items::FileItems;
use nav_eph::NavItem;
use nav_io::{LineFault, Source};
use one_run::BridgeFault;
use rinex_read::{
    FileForm, HeaderFault, ItemRead, RecordReader, readers_begin_with_the_file, steps_compose,
};
use std::alloc::AllocError;

// The fault of a run whose reading of lines failed so.
fn fault_of(fault: LineFault) -> BridgeFault
    ensures { result ≡ fault_by fault }
{
    match fault {
        LineFault::ReadFault => BridgeFault::ReadFault,
        LineFault::TooLong => BridgeFault::TooLong,
    }
}

// Whether an item is an ephemeris.
fn is_ephemeris(item: &NavItem) -> bool
    ensures { result ≡ is_ephemeris item.now }
{
    match item {
        NavItem::Gps(_) => true,
        NavItem::Gal(_) => true,
        NavItem::Ion(_) => false,
    }
}

// Adds an item, if it is compared.
fn take_item(all: bool, item: &NavItem, items: &mut FileItems) -> Result<(), AllocError>
    ensures { OnOk result (items.new ≡ with_items items.old (compared all (item.now ∷ []))) }
{
    if all || is_ephemeris(item) {
        items.add(item)?;
    }
    Ok(())
}

// Adds the item of a record, if it has one.
fn take_read(all: bool, read: &ItemRead, items: &mut FileItems) -> Result<(), BridgeFault>
    ensures items { OnOk result (items.new
        ≡ with_items items.old (compared all (item_in read.now))) }
    ensures fault { IfErr result (λ fault. fault ≡ BridgeFault.NoMemory) }
{
    match read {
        ItemRead::Item { item, .. } => match take_item(all, item, items) {
            Ok(()) => Ok(()),
            Err(AllocError) => Err(BridgeFault::NoMemory),
        },
        ItemRead::Refused { .. } => Ok(()),
        ItemRead::PassedOver { .. } => Ok(()),
    }
}

// Counts an item, if it is an ionosphere.
fn count_item(item: &NavItem, counts: &mut ReadCounts)
    requires { sum_of counts.old + 1 < 2 ^ 64 }
    ensures { counts.new ≡ record counts.old {
      ionospheres = counts.old.ionospheres + is_ionosphere item.now;
    } }
{
    match item {
        NavItem::Gps(_) => {}
        NavItem::Gal(_) => {}
        NavItem::Ion(_) => counts.ionospheres += 1,
    }
}

// Counts a record.
fn count_read(read: &ItemRead, counts: &mut ReadCounts)
    requires { sum_of counts.old + 1 < 2 ^ 64 }
    ensures { counts.new ≡ counted counts.old read.now }
{
    match read {
        ItemRead::Item { item, .. } => count_item(item, counts),
        ItemRead::Refused { .. } => counts.refused += 1,
        ItemRead::PassedOver { .. } => counts.passed += 1,
    }
}

// Reads the header.
fn pass_header<F: FileForm<ItemRead>, S: Source>(
    form: &F,
    records: &mut RecordReader,
    input: &mut S,
) -> Result<(), BridgeFault>
    requires first { IsNew records.old }
    ensures header { OnOk result (PassesHeader (F.form form.now) (S.left input.old)
        (S.left input.new)
        records.old records.new) }
    ensures broken { IfErr result (NoHeader (F.form form.now) (S.left input.old) (S.left input.new)
        records.old records.new) }
    ensures cause { HasItsCause (faults_of (S.faults input.old) 0 0)
        (faults_of (S.faults input.new) 0 0) result }
    ensures never { IsTrue (S.never_fails input.old)
        → (IsErrOf result BridgeFault.ReadFault → ⊥) × IsTrue (S.never_fails input.new) }
{
    match records.read_header(form, input) {
        Ok(()) => Ok(()),
        Err(HeaderFault::NotRinexNav) => Err(BridgeFault::NotThisForm),
        Err(HeaderFault::Version) => Err(BridgeFault::NotThisForm),
        Err(HeaderFault::Line(fault)) => Err(fault_of(fault)),
    }
}

// Reads the next record; `None` at the end of the file.
fn next_read<F: FileForm<ItemRead>, S: Source>(
    form: &F,
    records: &mut RecordReader,
    input: &mut S,
) -> Result<Option<ItemRead>, BridgeFault>
    requires header { records.old.header ≡ Passed }
    ensures read { IfOk result (λ given.
        GivesRead (F.form form.now) given (S.left input.old)
        (S.left input.new) records.old records.new) }
    ensures header { records.new.header ≡ Passed }
    ensures broken { IfErr result
        (λ fault. BreaksAfter (F.form form.now) (S.left input.old) (S.left input.new)
        records.old records.new fault) }
    ensures cause { HasItsCause (faults_of (S.faults input.old) 0 0)
        (faults_of (S.faults input.new) 0 0) result }
    ensures never { IsTrue (S.never_fails input.old)
        → (IsErrOf result BridgeFault.ReadFault → ⊥) × IsTrue (S.never_fails input.new) }
{
    match records.next_item(form, input) {
        Ok(read) => Ok(read),
        Err(fault) => Err(fault_of(fault)),
    }
}

// Reads the records after the header.
fn read_records<F: FileForm<ItemRead>, S: Source>(
    form: &F,
    all: bool,
    records: &mut RecordReader,
    items: &mut FileItems,
    counts: &mut ReadCounts,
    input: &mut S,
) -> Result<(), BridgeFault>
    requires header { records.old.header ≡ Passed }
    requires counts { counts.old ≡ counts_of [] }
    ensures all { OnOk result (ReadsAll (F.form form.now) all (S.left input.old) (S.left input.new)
        records.old records.new items.old items.new counts.new) }
    ensures broken { IfErr result (BreaksAfter (F.form form.now) (S.left input.old)
        (S.left input.new)
        records.old records.new) }
    ensures cause { HasItsCause (faults_of (S.faults input.old) 0 0)
        (faults_of (S.faults input.new) 0 0) result }
    ensures never { IsTrue (S.never_fails input.old) → IsErrOf result BridgeFault.ReadFault → ⊥ }
{
    steps_compose::<ItemRead, F>(form);
    'records: loop {
        match next_read::<F, S>(form, records, input) {
            Err(fault) => return Err(fault),
            Ok(None) => return Ok(()),
            Ok(Some(read)) => {
                take_read(all, &read, items)?;
                count_read(&read, counts);
            }
        }
    }
}

/// Reads a navigation file of one format to its end, and puts its items into a set, which is empty
/// before: all of them, or the ephemerides alone. The counts are those of its records.
///
/// # Errors
///
/// - `NotThisForm` only if the header is rejected.
/// - `ReadFault` only if the input's count of errors rose or is at its maximum.
/// - `TooLong` only if 4,294,967,295 bytes were read and there was one more.
/// - `NoMemory` where memory for the items is missing.
///
/// Then some of the items are in the set.
pub fn read_items<F: FileForm<ItemRead>, S: Source>(
    form: &F,
    all: bool,
    items: &mut FileItems,
    input: &mut S,
) -> Result<ReadCounts, BridgeFault>
    requires { items.old ≡ [] }
    ensures file { IfOk result (IsFile (F.form form.now) all (S.left input.old)
        (S.left input.new) items.new) }
    ensures form { IsErrOf result BridgeFault.NotThisForm → IfSome (S.left input.old) (λ bytes.
        IsErr (file_reads (F.form form.now) bytes)) }
    ensures long { IsErrOf result BridgeFault.TooLong → IsTooLong (S.left input.old)
        (S.left input.new) }
    ensures cause { HasItsCause (faults_of (S.faults input.old) 0 0)
        (faults_of (S.faults input.new) 0 0) result }
    ensures never { IsTrue (S.never_fails input.old) → IsErrOf result BridgeFault.ReadFault → ⊥ }
{
    readers_begin_with_the_file::<ItemRead, F>(form);
    steps_compose::<ItemRead, F>(form);
    let mut records = RecordReader::new();
    let mut counts = ReadCounts {
        refused: 0,
        passed: 0,
        ionospheres: 0,
    };
    pass_header::<F, S>(form, &mut records, input)?;
    read_records::<F, S>(form, all, &mut records, items, &mut counts, input)?;
    Ok(counts)
}
