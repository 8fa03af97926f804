//! The run over a navigation file, whatever is done with its records.

ghost use Rattle.std.specs.Prelude.{◌≡◌, ◌⊎◌, ◌+◌, ◌^◌, ◌<◌, ◌++◌};
ghost use Rattle.std.specs.Prelude.{◌∷◌, ℕ, Bool, true, List, [], Option, length};
ghost use Rattle.std.specs.Prelude.{IsTrue, IsErrOf, IfErr, MatchResult, OnOk};
ghost use Rattle.std.specs.Io.KnownBytes.{Appends};
ghost use Rattle.nav_io.specs.Causes.{HasCause};
ghost use Rattle.nav_io.specs.Prefix.{AppendsPrefix, IsPrefix};
ghost use Rattle.nav_io.specs.Writes.{Writes};
ghost use Rattle.rinex_read.specs.declared.judged.HeaderState.TheVariants.{Passed};
ghost use Rattle.one_run.specs.Causes.{HasItsCause, faults_of};
ghost use Rattle.one_run.specs.Runs.{AppendsBetween, Ran};
ghost use Rattle.nav_files.specs.Files.{file_meaning};
ghost use Rattle.nav_files.specs.Taken.{TakesAll, TakesPart};

use crate::file::pass_header;
use crate::records::next_read;
use nav_io::{Failed, Sink, Source};
use one_run::{BridgeFault, Text};
use rinex_read::{
    FileForm, RecordReader, early_records_are_given, readers_begin_with_the_file, steps_compose,
    whole_records_are_given,
};

/// What a run does with the records of a file, in order. Its settings do not change; what it holds
/// of the records is its state.
pub trait Taker<R> {
    type State;

    type Counts: Copy;

    // What is known of each record.
    ghost known: { R → Type 0 };

    // What was written and reported after these records.
    ghost text: { Self → List R → List ℕ };

    ghost told: { Self → List R → List ℕ };

    // What is written and reported of all records of a file, and what is counted.
    ghost whole: { Self → List R → List ℕ };

    ghost reported: { Self → List R → List ℕ };

    ghost count: { Self → List R → Self.Counts };

    // Whether it takes memory.
    ghost memory: { Bool };

    // The state is that after these records.
    ghost holds: { Self → Self.State → List R → Type 0 };

    // What was written and reported is a prefix of the whole, and of what is written and reported
    // of more records; at first nothing is reported.
    fn begins(&self)
        ensures grows { (some more : List R)
            → IsPrefix (text self.now some) (text self.now (some ++ more)) }
        ensures text { (some more : List R)
            → IsPrefix (text self.now some) (whole self.now (some ++ more)) }
        ensures told { (some more : List R)
            → IsPrefix (told self.now some) (reported self.now (some ++ more)) }
        ensures more { (some more : List R)
            → IsPrefix (told self.now some) (told self.now (some ++ more)) }
        ensures silent { told self.now [] ≡ [] };

    // Writes the leading text.
    fn begin<T: Sink>(&self, output: &mut T) -> Result<(), Failed>
        ensures { Writes (T.written output.old) (T.written output.new)
            (T.faults output.old) (T.faults output.new) result (text self.now []) };

    // Processes a record. Where that fails, all that belongs to the records before it was written
    // and reported.
    fn take<T: Sink, U: Sink>(
        &self,
        state: &mut Self::State,
        read: &R,
        output: &mut T,
        report: &mut U,
    ) -> Result<(), BridgeFault>
        requires known { known read.now }
        requires few { (reads : List R) × holds self.now state.old reads
            × (length reads + 1 < 2 ^ 64) }
        ensures held { OnOk result ((reads : List R) → holds self.now state.old reads
            → holds self.now state.new (reads ++ read.now ∷ [])) }
        ensures output { (reads : List R) (start : Option (List ℕ))
            → holds self.now state.old reads
            → Appends start (T.written output.old) (text self.now reads)
            → MatchResult result
            (λ _. Appends start (T.written output.new) (text self.now (reads ++ read.now ∷ [])))
            (λ _. AppendsBetween start (T.written output.new) (text self.now reads)
            (text self.now (reads ++ read.now ∷ []))) }
        ensures report { (reads : List R) (start : Option (List ℕ))
            → holds self.now state.old reads
            → Appends start (U.written report.old) (told self.now reads)
            → MatchResult result
            (λ _. Appends start (U.written report.new) (told self.now (reads ++ read.now ∷ [])))
            (λ _. AppendsBetween start (U.written report.new) (told self.now reads)
            (told self.now (reads ++ read.now ∷ []))) }
        ensures cause { HasItsCause (faults_of 0 (T.faults output.old) (U.faults report.old))
            (faults_of 0 (T.faults output.new) (U.faults report.new)) result }
        ensures kinds { IfErr result (λ fault. (fault ≡ BridgeFault.WriteFault)
            ⊎ ((fault ≡ BridgeFault.ReportFault)
            ⊎ ((fault ≡ BridgeFault.NoMemory) × (memory ≡ true)))) };

    // The counts of the records so far.
    fn counts(&self, state: &Self::State) -> Self::Counts
        ensures { (reads : List R) → holds self.now state.now reads
            → result ≡ count self.now reads };

    // Writes the text at the end of a file. Where that fails, all that belongs to its records was
    // written before.
    fn finish<T: Sink>(&self, state: &mut Self::State, output: &mut T) -> Result<(), Failed>
        ensures output { (reads : List R) (start : Option (List ℕ))
            → holds self.now state.old reads
            → Appends start (T.written output.old) (text self.now reads)
            → MatchResult result
            (λ _. Appends start (T.written output.new) (whole self.now reads))
            (λ _. AppendsBetween start (T.written output.new) (text self.now reads)
            (whole self.now reads)) }
        ensures cause { HasCause (T.faults output.old) (T.faults output.new) result };

    // The text of counts.
    fn counts_text(&self, counts: &Self::Counts) -> Text
        ensures { (reads : List R) → counts.now ≡ count self.now reads
            → reported self.now reads ≡ told self.now reads ++ result.items };
}

// Processes the records after the header, in order.
fn process_records<R: Drop, F: FileForm<R>, K: Taker<R>, S: Source, T: Sink, U: Sink>(
    form: &F,
    taker: &K,
    state: &mut K::State,
    records: &mut RecordReader,
    input: &mut S,
    output: &mut T,
    report: &mut U,
) -> Result<(), BridgeFault>
    requires header { records.old.header ≡ Passed }
    requires nothing { K.holds taker.now state.old [] }
    requires known { (read : R) → F.whole read → K.known read }
    requires grows { (some more : List R)
        → IsPrefix (K.text taker.now some) (K.text taker.now (some ++ more)) }
    requires tells { (some more : List R)
        → IsPrefix (K.told taker.now some) (K.told taker.now (some ++ more)) }
    ensures all { OnOk result (TakesAll (F.form form.now) (K.text taker.now) (K.told taker.now)
        (K.holds taker.now state.new) (S.left input.old) (S.left input.new)
        records.old records.new (T.written output.old) (T.written output.new)
        (U.written report.old) (U.written report.new)) }
    ensures broken { IfErr result (TakesPart (F.form form.now) (K.text taker.now) (K.told taker.now)
        K.memory (S.left input.old) (S.left input.new)
        records.old records.new (T.written output.old) (T.written output.new)
        (U.written report.old) (U.written report.new)) }
    ensures cause { HasItsCause
        (faults_of (S.faults input.old) (T.faults output.old) (U.faults report.old))
        (faults_of (S.faults input.new) (T.faults output.new) (U.faults report.new)) result }
    ensures never { IsTrue (S.never_fails input.old) → IsErrOf result BridgeFault.ReadFault → ⊥ }
{
    steps_compose::<R, F>(form);
    'records: loop {
        match next_read::<R, F, S>(form, records, input) {
            Err(fault) => return Err(fault),
            Ok(None) => return Ok(()),
            Ok(Some(read)) => taker.take(state, &read, output, report)?,
        }
    }
}

/// Reads a navigation file of a format to its end.
///
/// The header is checked first; then the records are processed in order, and at the end the counts
/// are reported.
pub fn run_file<R: Drop, F: FileForm<R>, K: Taker<R>, S: Source, T: Sink, U: Sink>(
    form: &F,
    taker: &K,
    state: &mut K::State,
    input: &mut S,
    output: &mut T,
    report: &mut U,
) -> Result<K::Counts, BridgeFault>
    requires nothing { K.holds taker.now state.old [] }
    requires known { (read : R) → F.whole read → K.known read }
    ensures { Ran (file_meaning (F.form form.now) K.memory (K.text taker.now) (K.told taker.now)
        (K.whole taker.now) (K.reported taker.now) (K.count taker.now))
        S.left S.never_fails S.faults T.written T.faults U.written U.faults
        input.old input.new output.old output.new report.old report.new result }
{
    readers_begin_with_the_file::<R, F>(form);
    steps_compose::<R, F>(form);
    whole_records_are_given::<R, F>(form);
    early_records_are_given::<R, F>(form);
    taker.begins();
    let mut records = RecordReader::new();
    pass_header::<R, F, S>(form, &mut records, input)?;
    match taker.begin(output) {
        Ok(()) => {}
        Err(Failed) => return Err(BridgeFault::WriteFault),
    }
    process_records(form, taker, state, &mut records, input, output, report)?;
    let counts = taker.counts(state);
    match taker.finish(state, output) {
        Ok(()) => {}
        Err(Failed) => return Err(BridgeFault::WriteFault),
    }
    match report.write(taker.counts_text(&counts).as_slice()) {
        Ok(()) => Ok(counts),
        Err(Failed) => Err(BridgeFault::ReportFault),
    }
}
