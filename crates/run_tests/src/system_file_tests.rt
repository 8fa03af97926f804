//! Navigation files of all systems, in both versions. The numbers are those of an independent
//! writer.

use all_systems::{Kinds, SystemCounts, Version, run_system_file, run_system_merge};
use nav_io::{MemSink, MemSource};
use one_run::BridgeFault;
use rinex_write::{HeaderWords, write_header, write_header3};
use std::alloc::{AllocError, Global};
use std::test::Fail;
use streams::{Target, Times};

// What the header of a file says.
const WORDS: HeaderWords = HeaderWords {
    date: *b"20240101 000000 UTC",
    leap: 18,
};

// The header of a file of another writer, of an older version.
const OLDER_HEADER: &[u8] = b"     3.03           N: GNSS NAV DATA    \
    M: MIXED            RINEX VERSION / TYPE\n\
    \x20                                                           END OF HEADER\n";

// A record: its title, and its lines.
struct Sample {
    title: &'static [u8],
    lines: &'static [u8],
}

// A record of each kind.
static SAMPLES: [Sample; 9] = [
    Sample {
        title: b"> EPH G30 LNAV\n",
        lines: b"\
            G30 2024 01 06 23 59 28-4.656612873077D-10-3.725176611624D-09 4.163336342344D-16\n\
            \x20    0.000000000000D+00 9.369062500000D+02 0.000000000000D+00 1.639579077587D+00\n\
            \x20    1.982226967812D-05 0.000000000000D+00-6.103515625000D-05 3.482791307449D+03\n\
            \x20    4.789920000000D+05 1.862645149231D-09-3.141592652127D+00-2.478808164597D-05\n\
            \x20    2.996056226339D-06-3.125000000000D-02 3.053151025321D+00-4.789410212445D-07\n\
            \x20   -2.925836158534D-09 0.000000000000D+00 2.295000000000D+03 1.000000000000D+00\n\
            \x20    8.192000000000D+03 7.000000000000D+00 0.000000000000D+00 3.000000000000D+00\n\
            \x20    9.999000000000D+08 4.000000000000D+00\n",
    },
    Sample {
        title: b"> EPH E33 INAV\n",
        lines: b"\
            E33 2023 12 31 00 00 00-1.639650668949D-02-8.561514164285D-09 5.030698080333D-17\n\
            \x20    0.000000000000D+00-6.694375000000D+02-5.689522705744D-10-3.141592653590D+00\n\
            \x20    2.793967723846D-08 1.451087798923D-01-3.595650196075D-05 5.522124004364D+02\n\
            \x20    4.686000000000D+04 4.887580871582D-05-3.176260084553D-02 1.226738095284D-05\n\
            \x20    1.171051792128D+00 1.023968750000D+03-1.077581327370D+00-2.996056226339D-06\n\
            \x20    0.000000000000D+00 5.170000000000D+02 2.295000000000D+03\n\
            \x20   -1.000000000000D+00 1.960000000000D+02 1.189764589071D-07 1.187436282635D-07\n\
            \x20    9.999000000000D+08\n",
    },
    Sample {
        title: b"> EPH E09 FNAV\n",
        lines: b"\
            E09 2024 01 04 04 21 00 1.484295353293D-08 1.490114698299D-08-1.734723475977D-18\n\
            \x20    1.000000000000D+00 7.005312500000D+02 1.170298747640D-08 2.509906205451D+00\n\
            \x20    6.103143095970D-05 3.818494966254D-02 1.923739910126D-05 4.800590393066D+03\n\
            \x20    1.373400000000D+05-6.103329360485D-05 3.141592652127D+00-1.413002610207D-05\n\
            \x20   -1.495637453406D+00 7.638750000000D+02-3.975777789046D-01 5.857722569086D-07\n\
            \x20    1.688284609545D-09 2.580000000000D+02 2.295000000000D+03\n\
            \x20    9.000000000000D-02 2.400000000000D+01 2.677552402020D-08 0.000000000000D+00\n\
            \x20    9.999000000000D+08\n",
    },
    Sample {
        title: b"> EPH R22 FDMA\n",
        lines: b"\
            R22 2024 01 06 17 00 00 8.103102445602D-04-9.304130799137D-10 5.402400000000D+05\n\
            \x20   -2.593312451172D+04 1.723708152771D+00 9.313225746155D-10 1.000000000000D+00\n\
            \x20   -1.186077539062D+04 1.250000000000D-01-1.396983861923D-08-7.000000000000D+00\n\
            \x20   -3.276799902344D+04 1.621246337891D-05 1.396983861923D-08 0.000000000000D+00\n\
            \x20    1.700000000000D+01 1.024454832077D-08 4.000000000000D+00 5.000000000000D+00\n",
    },
    Sample {
        title: b"> EPH C32 D1\n",
        lines: b"\
            C32 2024 01 05 22 43 28-4.753537941724D-04 1.455102704995D-11 4.594306705907D-18\n\
            \x20    1.600000000000D+01 0.000000000000D+00-4.180531278765D-09 1.933103738901D+00\n\
            \x20   -6.103515625000D-05 1.406516286079D-01-4.027644172311D-05 8.191999998093D+03\n\
            \x20    6.047920000000D+05-4.656612873077D-10 1.006529042043D+00 6.103469058871D-05\n\
            \x20   -1.462918079267D-09 1.026562500000D+01 3.759699463717D-07 3.214419607765D-12\n\
            \x20    2.925479000800D-09 0.000000000000D+00 9.390000000000D+02 0.000000000000D+00\n\
            \x20    2.000000000000D+00 0.000000000000D+00 5.100000000000D-08 1.120000000000D-08\n\
            \x20    9.999000000000D+08 1.500000000000D+01\n",
    },
    Sample {
        title: b"> EPH C05 D2\n",
        lines: b"\
            C05 2023 12 30 23 59 52-3.113916609436D-04-1.420634276883D-09 3.469446951954D-18\n\
            \x20    3.100000000000D+01-2.048000000000D+03 5.363080536688D-09-1.424560991895D+00\n\
            \x20    8.577946573496D-06 4.999999998836D-01 6.103469058871D-05 8.191999998093D+03\n\
            \x20    2.275120000000D+05 1.907348632812D-06-1.462918079267D-09 4.656612873077D-10\n\
            \x20    1.496565195090D-06 1.562500000000D-02-3.141592652127D+00-1.478370151479D-06\n\
            \x20    7.314590396336D-10 0.000000000000D+00 9.390000000000D+02 0.000000000000D+00\n\
            \x20    1.130000000000D+01 1.000000000000D+00 4.560000000000D-08 2.780000000000D-08\n\
            \x20    9.999000000000D+08 2.900000000000D+01\n",
    },
    Sample {
        title: b"> EPH J07 LNAV\n",
        lines: b"\
            J07 2023 12 31 00 00 00 4.882812500000D-04 0.000000000000D+00 5.273559366969D-16\n\
            \x20    1.590000000000D+02-6.100000000000D+01-8.835725186277D-09 1.387028765030D-02\n\
            \x20    7.450580596924D-09 9.765625000000D-04-6.103329360485D-05 2.812152936935D+03\n\
            \x20    4.985600000000D+04 3.775581717491D-05-8.429310785486D-01-4.116632044315D-05\n\
            \x20   -9.032370587862D-01-6.327500000000D+02-3.834966598895D-04-2.888410313883D-06\n\
            \x20    2.250093725435D-11 0.000000000000D+00 2.295000000000D+03 1.000000000000D+00\n\
            \x20    2.000000000000D+00 5.000000000000D+01-4.097819328308D-08 4.980000000000D+02\n\
            \x20    9.999000000000D+08 1.000000000000D+00\n",
    },
    Sample {
        title: b"> EPH I14 LNAV\n",
        lines: b"\
            I14 2024 01 03 15 18 08 8.295080624521D-04-4.656612873077D-10 8.604228440845D-16\n\
            \x20    6.600000000000D+01 5.120000000000D+02 1.482266028044D-06-9.396306891955D-01\n\
            \x20   -6.103143095970D-05 3.618128706003D-01-6.103515625000D-05 1.907348632812D-06\n\
            \x20    4.514880000000D+05-4.084780812263D-05 3.141592652127D+00 3.010779619217D-05\n\
            \x20   -4.189022207989D-01 6.250000000000D-02 2.811321826404D+00 1.057108318519D-06\n\
            \x20   -2.925479000800D-09 0.000000000000D+00 2.295000000000D+03 0.000000000000D+00\n\
            \x20    2.000000000000D+00 3.000000000000D+00 1.396983861923D-09 0.000000000000D+00\n\
            \x20    9.999000000000D+08\n",
    },
    Sample {
        title: b"> EPH S47 SBAS\n",
        lines: b"\
            S47 2024 01 01 20 36 32-9.536743164062D-07 0.000000000000D+00 1.605310000000D+05\n\
            \x20   -4.294967296000D+04 0.000000000000D+00-2.737500000000D-06 4.200000000000D+01\n\
            \x20    1.310720000000D+00 4.095875000000D-02-1.037500000000D-06 1.024000000000D+03\n\
            \x20   -1.494737600000D+03-3.517600000000D-02-1.112500000000D-05 2.340000000000D+02\n",
    },
];

// A record that no version reads, one without a satellite, and one that ends too early.
const OTHERS: &[u8] = b"> EPH J02 CNAV\n\
    J02 2024 01 01 00 00 00 0.000000000000D+00 0.000000000000D+00 0.000000000000D+00\n\
    > EPH R99 FDMA\n\
    R99 2024 01 01 00 00 00 0.000000000000D+00 0.000000000000D+00 0.000000000000D+00\n\
    > EPH C31 D1\n\
    C31 2024 01 01 00 00 00 0.000000000000D+00 0.000000000000D+00 0.000000000000D+00\n";

// A GLONASS record of four lines, and fifth lines whose numbers are not known: as written, and as
// others write it.
const OLD_RECORD: &[u8] = b"\
    R22 2024 01 06 17 00 00 8.103102445602D-04-9.304130799137D-10 5.402400000000D+05\n\
    \x20   -2.593312451172D+04 1.723708152771D+00 9.313225746155D-10 1.000000000000D+00\n\
    \x20   -1.186077539062D+04 1.250000000000D-01-1.396983861923D-08-7.000000000000D+00\n\
    \x20   -3.276799902344D+04 1.621246337891D-05 1.396983861923D-08 0.000000000000D+00\n";

const NOT_KNOWN: &[u8] = b"    \
    \x209.999999999990D+08 9.999999999990D+08 9.999999999990D+08 9.999999999990D+08\n";

const NOT_KNOWN_TOO: &[u8] = b"    \
    \x20 .999999999999E+09 1.000000000000D+12                    9.999999990000D+08\n";

// A fifth line with a health that is out of range, and no number that is not known.
const BELOW: &[u8] = b"    \
    \x201.700000000000D+01 1.024454832077D-08 4.000000000000D+00-1.000000000000D+12\n";

// A record of another kind of 11 lines, from an independent writer, and its text.
const CARRIED: &[u8] = b"\
    > EPH C20 CNV1\n\
    C20 2024 01 02 02 00 00 1.000000000000e-04-2.000000000000e-12 0.000000000000e+00\n\
    \x20    0.000000000000e+00-3.150000000000e+01 4.100000000000e-09 5.000000000000e-01\n\
    \x20   -1.200000000000e-06 1.500000000000e-03 5.500000000000e-06 5.153600000000e+03\n\
    \x20    1.728000000000e+05 1.000000000000e-08-2.500000000000e+00-3.000000000000e-08\n\
    \x20    9.600000000000e-01 2.505000000000e+02 9.000000000000e-01-8.200000000000e-09\n\
    \x20    1.000000000000e-10 2.000000000000e-14 3.000000000000e+00 1.719000000000e+05\n\
    \x20    0.000000000000e+00 1.000000000000e+00 1.000000000000e+00 1.000000000000e+00\n\
    \x20    1.000000000000e-10                   -4.000000000000e-09 2.000000000000e-09\n\
    \x20    1.500000000000e+01 0.000000000000e+00 0.000000000000e+00 2.000000000000e+01\n\
    \x20    1.728090000000e+05                                       2.000000000000e+01\n";

const CARRIED_TEXT: &[u8] = b"\
    > EPH C20 CNV1\n\
    C20 2024 01 02 02 00 00 1.000000000000D-04-2.000000000000D-12 0.000000000000D+00\n\
    \x20    0.000000000000D+00-3.150000000000D+01 4.100000000000D-09 5.000000000000D-01\n\
    \x20   -1.200000000000D-06 1.500000000000D-03 5.500000000000D-06 5.153600000000D+03\n\
    \x20    1.728000000000D+05 1.000000000000D-08-2.500000000000D+00-3.000000000000D-08\n\
    \x20    9.600000000000D-01 2.505000000000D+02 9.000000000000D-01-8.200000000000D-09\n\
    \x20    1.000000000000D-10 2.000000000000D-14 3.000000000000D+00 1.719000000000D+05\n\
    \x20    0.000000000000D+00 1.000000000000D+00 1.000000000000D+00 1.000000000000D+00\n\
    \x20    1.000000000000D-10                   -4.000000000000D-09 2.000000000000D-09\n\
    \x20    1.500000000000D+01 0.000000000000D+00 0.000000000000D+00 2.000000000000D+01\n\
    \x20    1.728090000000D+05                                       2.000000000000D+01\n";

// Ionosphere parameters of GPS and Galileo, from an independent writer.
const IONOSPHERES: &[u8] = b"\
    > ION G14 LNAV\n\
    \x20   2024 01 02 02 00 00 1.396983861923D-08 2.235174179077D-08-5.960464477539D-08\n\
    \x20   -1.192092895508D-07 1.105920000000D+05 1.474560000000D+05-1.310720000000D+05\n\
    \x20   -3.932160000000D+05 0.000000000000D+00\n\
    > ION E02 IFNV\n\
    \x20   2024 01 02 02 00 00 7.075000000000D+01 1.718750000000D-01 3.997802734375D-03\n\
    \x20    0.000000000000D+00\n";

// One of 12 lines, and one of 13.
const LONG: &[u8] = b"> EPH R04 L1OC\n\n\n\n\n\n\n\n\n\n\n\n";

const TOO_LONG: &[u8] = b"> EPH R04 L3OC\n\n\n\n\n\n\n\n\n\n\n\n\n";

// An empty sink.
fn sink_of(alloc: Global) -> Result<MemSink, AllocError> {
    MemSink::new(alloc, 20_000, Vec::new(alloc))
}

// The text of the records, with their titles or without, behind a header.
fn file_of(alloc: Global, header: &[u8], has_titles: bool) -> Result<Vec<u8>, AllocError> {
    let mut text = header.to_vec(alloc)?;
    for sample in &SAMPLES {
        if has_titles {
            text.extend_from_slice(sample.title)?;
        }
        text.extend_from_slice(sample.lines)?;
    }
    Ok(text)
}

// The file of a version that is written.
fn written(alloc: Global, version: Version) -> Result<Vec<u8>, AllocError> {
    let mut header = sink_of(alloc)?;
    let done = match version {
        Version::Four => write_header(&WORDS, &mut header),
        Version::Three => write_header3(&WORDS, &mut header),
    };
    match done {
        Ok(()) => file_of(alloc, header.bytes(), version == Version::Four),
        Err(_) => Err(AllocError),
    }
}

// Runs over a file, and what it ended with.
fn file_run(
    alloc: Global,
    version: Version,
    to: &Target,
    bytes: &[u8],
    output: &mut MemSink,
    report: &mut MemSink,
) -> Result<Result<SystemCounts, BridgeFault>, AllocError> {
    let cuts = vec![in alloc; 7u32; 4000]?;
    let mut input = MemSource::new(bytes.to_vec(alloc)?, cuts, Vec::new(alloc));
    let kinds = Kinds::all();
    Ok(run_system_file(alloc, &kinds, version, to, &mut input, output, report))
}

// Whether a file becomes this.
fn becomes(
    alloc: Global,
    version: Version,
    to: &Target,
    bytes: &[u8],
    text: &[u8],
) -> Result<bool, AllocError> {
    let _inside: Option<Times> = None;
    let mut output = sink_of(alloc)?;
    let mut report = sink_of(alloc)?;
    let done = file_run(alloc, version, to, bytes, &mut output, &mut report)?;
    Ok(done.is_ok() && output.bytes() == text)
}

#[test]
fn a_record_of_each_kind_is_written_in_both_versions(rt: HostRuntime) -> Result<(), Fail> {
    let alloc = rt.alloc();
    let four = written(alloc, Version::Four)?;
    let three = written(alloc, Version::Three)?;
    let older = file_of(alloc, OLDER_HEADER, false)?;
    let to4 = Target::Rinex(WORDS);
    let to3 = Target::Rinex3(WORDS);
    assert!(rt; becomes(alloc, Version::Four, &to4, &four, &four)?);
    assert!(rt; becomes(alloc, Version::Four, &to3, &four, &three)?);
    assert!(rt; becomes(alloc, Version::Three, &to3, &three, &three)?);
    assert!(rt; becomes(alloc, Version::Three, &to4, &older, &four)?);
    Ok(())
}

#[test]
fn numbers_that_are_not_known_stay_so(rt: HostRuntime) -> Result<(), Fail> {
    let alloc = rt.alloc();
    let mut header = sink_of(alloc)?;
    assert!(rt; write_header3(&WORDS, &mut header).is_ok());
    let to = Target::Rinex3(WORDS);
    let wanted = [header.bytes(), OLD_RECORD, NOT_KNOWN].concat(alloc)?;
    let no_line: &[u8] = b"";
    for line in [no_line, b"\n", NOT_KNOWN, NOT_KNOWN_TOO] {
        let given = [OLDER_HEADER, OLD_RECORD, line].concat(alloc)?;
        assert!(rt; becomes(alloc, Version::Three, &to, &given, &wanted)?);
    }
    let refused = [OLDER_HEADER, OLD_RECORD, BELOW].concat(alloc)?;
    assert!(rt; becomes(alloc, Version::Three, &to, &refused, header.bytes())?);
    Ok(())
}

#[test]
fn other_records_are_passed_over_or_refused(rt: HostRuntime) -> Result<(), Fail> {
    let _inside: Option<Times> = None;
    let alloc = rt.alloc();
    let mut four = written(alloc, Version::Four)?;
    four.extend_from_slice(OTHERS)?;
    let mut output = sink_of(alloc)?;
    let mut report = sink_of(alloc)?;
    let done = file_run(
        alloc,
        Version::Four,
        &Target::Count,
        &four,
        &mut output,
        &mut report,
    )?;
    let counts: &[u8] = b"records 12\nrefused 2\npassed 0\ncarried 1\nitems 9\nunwritten 0\n";
    let refusals: &[u8] = b"line 81 satellite\nline 83 short\n";
    let told = [refusals, counts].concat(alloc)?;
    assert!(rt; done.is_ok() && output.bytes() == counts && report.bytes() == told.as_slice());
    let mut frames = sink_of(alloc)?;
    let mut again = sink_of(alloc)?;
    let sent = file_run(
        alloc,
        Version::Four,
        &Target::Rtcm,
        &four,
        &mut frames,
        &mut again,
    )?;
    let unwritten: u64 = match sent {
        Ok(counts) => counts.unwritten,
        Err(_) => 0,
    };
    assert!(rt; unwritten == 2);
    Ok(())
}

#[test]
fn records_of_other_kinds_are_carried(rt: HostRuntime) -> Result<(), Fail> {
    let alloc = rt.alloc();
    let mut header = sink_of(alloc)?;
    assert!(rt; write_header(&WORDS, &mut header).is_ok());
    let given = [header.bytes(), CARRIED, LONG, TOO_LONG, CARRIED].concat(alloc)?;
    let wanted = [header.bytes(), CARRIED_TEXT, LONG, CARRIED_TEXT].concat(alloc)?;
    let to = Target::Rinex(WORDS);
    assert!(rt; becomes(alloc, Version::Four, &to, &given, &wanted)?);
    assert!(rt; becomes(alloc, Version::Four, &to, &wanted, &wanted)?);
    let list = Target::ToList;
    assert!(rt; becomes(alloc, Version::Four, &list, &given, b"")?);
    Ok(())
}

#[test]
fn ionosphere_parameters_and_carried_records_follow_ephemerides(
    rt: HostRuntime,
) -> Result<(), Fail> {
    let alloc = rt.alloc();
    let four = written(alloc, Version::Four)?;
    let last = [SAMPLES[0].title, SAMPLES[0].lines].concat(alloc)?;
    let given = [four.as_slice(), CARRIED, IONOSPHERES, &last, CARRIED].concat(alloc)?;
    let wanted = [
        four.as_slice(),
        &last,
        CARRIED_TEXT,
        IONOSPHERES,
        CARRIED_TEXT,
    ]
    .concat(alloc)?;
    let to = Target::Rinex(WORDS);
    assert!(rt; becomes(alloc, Version::Four, &to, &given, &wanted)?);
    assert!(rt; becomes(alloc, Version::Four, &to, &wanted, &wanted)?);
    Ok(())
}

// The places of the samples in a merged file.
static MERGED: [usize; 9] = [1, 6, 2, 8, 5, 7, 0, 3, 4];

// The file of a version that is merged of the samples.
fn merged(alloc: Global, version: Version) -> Result<Vec<u8>, AllocError> {
    let mut header = sink_of(alloc)?;
    let done = match version {
        Version::Four => write_header(&WORDS, &mut header),
        Version::Three => write_header3(&WORDS, &mut header),
    };
    let mut text = header.bytes().to_vec(alloc)?;
    for place in &MERGED {
        if let (Ok(()), Some(sample)) = (done, SAMPLES.get(*place)) {
            if version == Version::Four {
                text.extend_from_slice(sample.title)?;
            }
            text.extend_from_slice(sample.lines)?;
        }
    }
    Ok(text)
}

#[test]
fn files_are_merged_in_order_without_duplicates(rt: HostRuntime) -> Result<(), Fail> {
    let _inside: Option<Times> = None;
    let alloc = rt.alloc();
    let four = written(alloc, Version::Four)?;
    let both = [four.as_slice(), four.as_slice()].concat(alloc)?;
    for to in [Version::Four, Version::Three] {
        let cuts = vec![in alloc; 7u32; 8000]?;
        let mut input = MemSource::new(both.to_vec(alloc)?, cuts, Vec::new(alloc));
        let mut output = sink_of(alloc)?;
        let mut report = sink_of(alloc)?;
        let kinds = Kinds::all();
        let done = run_system_merge(
            alloc,
            &kinds,
            Version::Four,
            to,
            &WORDS,
            &mut input,
            &mut output,
            &mut report,
        );
        let kept: u64 = match done {
            Ok(counts) => counts.kept,
            Err(_) => 0,
        };
        let wanted = merged(alloc, to)?;
        assert!(rt; kept == 9 && output.bytes() == wanted.as_slice());
    }
    Ok(())
}
