//! Names of outputs, and sentences.

use file_conversion::{Refusal, is_site, long_name, output_name};
use nav_eph::Moment;
use std::alloc::{AllocError, Global};
use std::test::Fail;
use whole_file::{FileFault, Kind};

// A name by the convention, the moments in seconds from 1980-01-06, and the type of the data.
struct LongCase {
    site: &'static str,
    first: u64,
    last: u64,
    data: &'static str,
    name: &'static str,
}

static LONG: [LongCase; 5] = [
    LongCase {
        site: "ALGO00CAN",
        first: 1_023_148_800,
        last: 1_023_152_399,
        data: "MN",
        name: "ALGO00CAN_R_20121600000_01H_MN.rnx",
    },
    LongCase {
        site: "BRDC00XXX",
        first: 1_388_102_400,
        last: 1_388_188_799,
        data: "MN",
        name: "BRDC00XXX_R_20240010000_01D_MN.rnx",
    },
    // over the end of a leap year
    LongCase {
        site: "ZIMM00CHE",
        first: 1_419_657_000,
        last: 1_419_724_800,
        data: "MN",
        name: "ZIMM00CHE_R_20243660000_02D_MN.rnx",
    },
    LongCase {
        site: "ZIMM00CHE",
        first: 1_419_657_000,
        last: 1_419_657_060,
        data: "GN",
        name: "ZIMM00CHE_R_20243660500_01H_GN.rnx",
    },
    LongCase {
        site: "BRDC00XXX",
        first: 0,
        last: 1_388_102_400,
        data: "MN",
        name: "BRDC00XXX_R_19800060000_00U_MN.rnx",
    },
];

// Names of sites that are none.
static NO_SITES: [&str; 3] = ["algo00can", "ALGO00CA", "ALGO0ACAN"];

// Whether a name by the convention is that of the case.
fn is_long_name(alloc: Global, case: &LongCase) -> Result<bool, AllocError> {
    let (Some(first), Some(last)) = (Moment::new(case.first), Moment::new(case.last)) else {
        return Ok(false);
    };
    let name = long_name(alloc, case.site, first, last, case.data)?;
    Ok(is_site(case.site) && name.as_str() == case.name)
}

#[test]
fn long_names_follow_the_convention(rt: HostRuntime) -> Result<(), Fail> {
    for case in &LONG {
        assert!(rt; is_long_name(rt.alloc(), case)?, "{}", case.name);
    }
    Ok(())
}

#[test]
fn sites_have_nine_characters(rt: HostRuntime) {
    for site in &NO_SITES {
        assert!(rt; !is_site(site), "{site}");
    }
}

// An input, an ending, and the name of the output.
struct NameCase {
    input: &'static str,
    ending: &'static str,
    name: Option<&'static str>,
}

static NAMES: [NameCase; 5] = [
    NameCase {
        input: "data/station.navcap",
        ending: "rnx",
        name: Some("station.rnx"),
    },
    NameCase {
        input: "station",
        ending: "rtcm3",
        name: Some("station.rtcm3"),
    },
    NameCase {
        input: "brdc0010.24n",
        ending: "rnx",
        name: Some("brdc0010.rnx"),
    },
    NameCase {
        input: ".hidden",
        ending: "rnx",
        name: Some(".hidden.rnx"),
    },
    NameCase {
        input: "..",
        ending: "rnx",
        name: None,
    },
];

// Whether the output has the name of the case, or none.
fn has_name(alloc: Global, case: &NameCase) -> Result<bool, AllocError> {
    let name = output_name(alloc, case.input, case.ending)?;
    Ok(match &name {
        Some(name) => case.name == Some(name.as_str()),
        None => case.name.is_none(),
    })
}

#[test]
fn outputs_have_the_name_of_their_input(rt: HostRuntime) -> Result<(), Fail> {
    for case in &NAMES {
        assert!(rt; has_name(rt.alloc(), case)?, "{}", case.input);
    }
    Ok(())
}

// A reason, its status and its sentence.
struct Sentence {
    refusal: Refusal<'static>,
    status: u8,
    text: &'static str,
}

static SENTENCES: [Sentence; 12] = [
    Sentence {
        refusal: Refusal::NoSuchConversion(Kind::Stream),
        status: 2,
        text: "it is an RTCM 3 stream; that converts to rinex, rinex3, rtcm, list, count, frames",
    },
    Sentence {
        refusal: Refusal::NoSuchConversion(Kind::Gzip),
        status: 2,
        text: "it is packed by gzip; unpack it: gzip -dc FILE | navconvert -o OUT -",
    },
    Sentence {
        refusal: Refusal::NotOpened(FileFault::NotFound),
        status: 3,
        text: "there is no such file",
    },
    Sentence {
        refusal: Refusal::ReadFault(8192, FileFault::Other),
        status: 3,
        text: "reading it failed after 8192 bytes: the system gives an unknown reason",
    },
    Sentence {
        refusal: Refusal::OutputThere("a.rnx"),
        status: 4,
        text: "a.rnx exists; --overwrite replaces it",
    },
    Sentence {
        refusal: Refusal::WriteFault("a.rnx", FileFault::DiskFull),
        status: 4,
        text: "writing a.rnx failed: the disk is full; it is unchanged",
    },
    Sentence {
        refusal: Refusal::NoFile("/dev/null"),
        status: 4,
        text: "/dev/null is not a regular file; -o - writes to standard output",
    },
    Sentence {
        refusal: Refusal::MadeBefore("a.rnx"),
        status: 4,
        text: "a.rnx is the output for another input; name the output with -o",
    },
    Sentence {
        refusal: Refusal::WriteFault("a.rnx", FileFault::NameTooLong),
        status: 4,
        text: "writing a.rnx failed: the name is too long for its file system; it is unchanged",
    },
    Sentence {
        refusal: Refusal::AmongFiles,
        status: 2,
        text: "it can be read only once; name a file",
    },
    Sentence {
        refusal: Refusal::NotAccepted(Kind::Capture2),
        status: 5,
        text: "its first line names another week than --week",
    },
    Sentence {
        refusal: Refusal::TooLong,
        status: 8,
        text: "it has more than 4,294,967,295 bytes; split it",
    },
];

// Whether a reason has its status and its sentence.
fn has_sentence(alloc: Global, case: &Sentence) -> Result<bool, AllocError> {
    let text = case.refusal.to_string(alloc)?;
    Ok(text.as_str() == case.text && case.refusal.status() == case.status)
}

#[test]
fn refusals_have_sentences(rt: HostRuntime) -> Result<(), Fail> {
    for case in &SENTENCES {
        assert!(rt; has_sentence(rt.alloc(), case)?, "{}", case.text);
    }
    Ok(())
}
