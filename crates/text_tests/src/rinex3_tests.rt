//! Files of an independent program, records of other kinds and of odd spellings, versions, and what
//! is written.

use nav_io::{LineFault, MemSink, MemSource};
use rinex_read::{HeaderFault, ItemRead, RecordFault, RecordReader, Rinex3};
use rinex_write::{HeaderWords, write_header3, write_item, write_item3};
use std::alloc::{AllocError, Global};
use std::test::Fail;

const HEADER: &[u8] =
    b"     3.05           N: GNSS NAV DATA    M: MIXED            RINEX VERSION / TYPE
navbridge                               20240101 000000 UTC PGM / RUN BY / DATE
    18                                                      LEAP SECONDS
                                                            END OF HEADER
";

const GPS: &[u8] =
    b"G05 2023 12 31 00 00 00 0.000000000000D+00 0.000000000000D+00 0.000000000000D+00
     0.000000000000D+00 0.000000000000D+00 0.000000000000D+00 0.000000000000D+00
     0.000000000000D+00 0.000000000000D+00 0.000000000000D+00 0.000000000000D+00
     0.000000000000D+00 0.000000000000D+00 0.000000000000D+00 0.000000000000D+00
     0.000000000000D+00 0.000000000000D+00 0.000000000000D+00 0.000000000000D+00
     0.000000000000D+00 0.000000000000D+00 2.295000000000D+03 0.000000000000D+00
     2.000000000000D+00 0.000000000000D+00 0.000000000000D+00 0.000000000000D+00
     0.000000000000D+00 4.000000000000D+00
";

const ODD_GPS: &[u8] =
    b"G05 2023 12 31 00 00 00  .000000000000D+00 0.000000000000E+00  .000000000000d+00
     0.000000000000D+00 0.000000000000D+00 0.000000000000D+00 0.000000000000D+00
     0.000000000000D+00 0.000000000000D+00 0.000000000000D+00 0.000000000000D+00
     0.000000000000D+00 0.000000000000D+00 0.000000000000D+00 0.000000000000D+00
     0.000000000000D+00 0.000000000000D+00 0.000000000000D+00 0.000000000000D+00
      .000000000000D+00  .000000000000D+00  .229500000000D+04
      .200000000000D+01  .000000000000e+00 0.0                0.
      .000000000000D+00
";

const GALILEO: &[u8] =
    b"E11 2023 12 31 00 00 00 0.000000000000D+00 0.000000000000D+00 0.000000000000D+00
     5.000000000000D+00 0.000000000000D+00 0.000000000000D+00 0.000000000000D+00
     0.000000000000D+00 0.000000000000D+00 0.000000000000D+00 0.000000000000D+00
     0.000000000000D+00 0.000000000000D+00 0.000000000000D+00 0.000000000000D+00
     0.000000000000D+00 0.000000000000D+00 0.000000000000D+00 0.000000000000D+00
     0.000000000000D+00 5.170000000000D+02 2.295000000000D+03
     3.120000000000D+00 0.000000000000D+00 0.000000000000D+00 0.000000000000D+00
     8.000000000000D+00
";

const FNAV: &[u8] =
    b"E11 2023 12 31 00 00 00 0.000000000000D+00 0.000000000000D+00 0.000000000000D+00
     5.000000000000D+00 0.000000000000D+00 0.000000000000D+00 0.000000000000D+00
     0.000000000000D+00 0.000000000000D+00 0.000000000000D+00 0.000000000000D+00
     0.000000000000D+00 0.000000000000D+00 0.000000000000D+00 0.000000000000D+00
     0.000000000000D+00 0.000000000000D+00 0.000000000000D+00 0.000000000000D+00
     0.000000000000D+00 2.580000000000D+02 2.295000000000D+03
     3.120000000000D+00 0.000000000000D+00 0.000000000000D+00 0.000000000000D+00
     8.000000000000D+00
";

const GLONASS: &[u8] =
    b"R01 2023 12 31 00 15 00 0.000000000000D+00 0.000000000000D+00 0.000000000000D+00
     0.000000000000D+00 0.000000000000D+00 0.000000000000D+00 0.000000000000D+00
     0.000000000000D+00 0.000000000000D+00 0.000000000000D+00 0.000000000000D+00
     0.000000000000D+00 0.000000000000D+00 0.000000000000D+00 0.000000000000D+00
";

const SIX_LINES: &[u8] =
    b"E11 2023 12 31 00 00 00 0.000000000000D+00 0.000000000000D+00 0.000000000000D+00
     5.000000000000D+00 0.000000000000D+00 0.000000000000D+00 0.000000000000D+00
     0.000000000000D+00 0.000000000000D+00 0.000000000000D+00 0.000000000000D+00
     0.000000000000D+00 0.000000000000D+00 0.000000000000D+00 0.000000000000D+00
     0.000000000000D+00 0.000000000000D+00 0.000000000000D+00 0.000000000000D+00
     0.000000000000D+00 5.170000000000D+02 2.295000000000D+03
";

const FIVE_LINES: &[u8] =
    b"E11 2023 12 31 00 00 00 0.000000000000D+00 0.000000000000D+00 0.000000000000D+00
     5.000000000000D+00 0.000000000000D+00 0.000000000000D+00 0.000000000000D+00
     0.000000000000D+00 0.000000000000D+00 0.000000000000D+00 0.000000000000D+00
     0.000000000000D+00 0.000000000000D+00 0.000000000000D+00 0.000000000000D+00
     0.000000000000D+00 0.000000000000D+00 0.000000000000D+00 0.000000000000D+00
";

const FILE: &[u8] =
    b"     3.04           N: GNSS NAV DATA    MIXED               RINEX VERSION / TYPE
tool                agency              20240101 000000 UTC PGM / RUN BY / DATE 
    18                                                      LEAP SECONDS        
                                                            END OF HEADER       
g05
G01 2024 01 13 12 58 24-9.765620343387D-04+2.525212039473D-09-3.164135620182D-15
    165.               -1.023968750000D+030.000000000000D+000-5.234755110962D-01
     1.407787203789D-05 2.533507678891E-01 -2.355687320232E-5 3.242492675781D-05
     5.694240000000D+05-4.735216498375D-05 2.769341126059D-01 5.068257451057D-06
     1.844451072996D+00 1.023937500000D+03 2.916308187713D+00 1.210704002110D-06
    -7.153869415948D-10 1.000000000000D+00 2.296000000000D+03 1.000000000000D+00
     2.000000000000D+00                  0-4.051253199577D-08 1.650000000000D+02
    6.047990000000D+005 4.000000000000d+00
G32 2024 01 07 00 00 00 6.064120680094D-04-.1302737473452D-08 1.082467449010D-15
     3.100000000000D+01 .1023937500000D+04-1.170298747640D-08 .2923995572061D+01
     1.862645149231D-09 2.027071721386D-02-3.725290298462D-09+3.424275032043D+03
     7.200000000000D+03 4.673376679420d-053.141592652127D+000 0.000000000000D+00
    -7.735773420528d-01 3.125000000000D-02-2.633252542681e-08 0.000000000000D+00
     0.000000000000D+00+2.000000000000D+00 .2296000000000D+04 0.000000000000D+00
     2.000000000000E+00 0.000000000000D+00 3.026798367500D-08 3.100000000000D+01
       9.071990000000E5 4.000000000000D+00
E01 2023 12 16 23 58 00-1.724973891396D-02 7.475748020624D-09 1.734723475977D-18
     8.220000000000D+02-5.525937500000D+02 9.286101089098D-12 2.283045680874D-01
     0.000000000000D+00 1.630391242215D-01 1.280754804611D-05 7.859423608780D+03
     2.634000000000D+05 1.862645149231D-09 0.000000000000D+00-7.905066013336D-06
     2.369311658838D+00 5.312500000000D-01-3.123219122270D-01 1.528431522451D-06
E36 2078 02 13 00 00 00 0.000000000000D+00 1.421085471520D-14 1.734723475977D-18
1234 3.920000000000D+02 1.210000000000D+02 7.500312418118D-12-1.382350354475D+00
     4.606135189533D-05 4.561257341411D-01-1.862645149231D-09 7.438659667969D-05
     2.233200000000D+05 1.862645149231D-09-7.271132454481D-01 2.647750079632D-05
    -5.851672317069D-09-3.921562500000D+02-1.462918079267D-09-3.571577341961D-13
     8.839653921353D-10                  4 5.119000000000D+03
     3.120000000000D+00 2.000000000000D+00 1.187436282635D-07-2.328306436539D-10
     6.047990000000D+05
    ";

const FOUR: &[u8] = b"> EPH G01 LNAV
G01 2024 01 13 12 58 24-9.765620343387D-04 2.525212039473D-09-3.164135620182D-15
     1.650000000000D+02-1.023968750000D+03 0.000000000000D+00-5.234755110962D-01
     1.407787203789D-05 2.533507678891D-01-2.355687320232D-05 3.242492675781D-05
     5.694240000000D+05-4.735216498375D-05 2.769341126059D-01 5.068257451057D-06
     1.844451072996D+00 1.023937500000D+03 2.916308187713D+00 1.210704002110D-06
    -7.153869415948D-10 1.000000000000D+00 2.296000000000D+03 1.000000000000D+00
     2.000000000000D+00 0.000000000000D+00-4.051253199577D-08 1.650000000000D+02
     6.047990000000D+05 4.000000000000D+00
> EPH G32 LNAV
G32 2024 01 07 00 00 00 6.064120680094D-04-1.302737473452D-09 1.082467449010D-15
     3.100000000000D+01 1.023937500000D+03-1.170298747640D-08 2.923995572061D+00
     1.862645149231D-09 2.027071721386D-02-3.725290298462D-09 3.424275032043D+03
     7.200000000000D+03 4.673376679420D-05 3.141592652127D+00 0.000000000000D+00
    -7.735773420528D-01 3.125000000000D-02-2.633252542681D-08 0.000000000000D+00
     0.000000000000D+00 2.000000000000D+00 2.296000000000D+03 0.000000000000D+00
     2.000000000000D+00 0.000000000000D+00 3.026798367500D-08 3.100000000000D+01
     9.071990000000D+05 4.000000000000D+00
";

const THREE: &[u8] =
    b"G01 2024 01 13 12 58 24-9.765620343387D-04 2.525212039473D-09-3.164135620182D-15
     1.650000000000D+02-1.023968750000D+03 0.000000000000D+00-5.234755110962D-01
     1.407787203789D-05 2.533507678891D-01-2.355687320232D-05 3.242492675781D-05
     5.694240000000D+05-4.735216498375D-05 2.769341126059D-01 5.068257451057D-06
     1.844451072996D+00 1.023937500000D+03 2.916308187713D+00 1.210704002110D-06
    -7.153869415948D-10 1.000000000000D+00 2.296000000000D+03 1.000000000000D+00
     2.000000000000D+00 0.000000000000D+00-4.051253199577D-08 1.650000000000D+02
     6.047990000000D+05 4.000000000000D+00
G32 2024 01 07 00 00 00 6.064120680094D-04-1.302737473452D-09 1.082467449010D-15
     3.100000000000D+01 1.023937500000D+03-1.170298747640D-08 2.923995572061D+00
     1.862645149231D-09 2.027071721386D-02-3.725290298462D-09 3.424275032043D+03
     7.200000000000D+03 4.673376679420D-05 3.141592652127D+00 0.000000000000D+00
    -7.735773420528D-01 3.125000000000D-02-2.633252542681D-08 0.000000000000D+00
     0.000000000000D+00 2.000000000000D+00 2.296000000000D+03 0.000000000000D+00
     2.000000000000D+00 0.000000000000D+00 3.026798367500D-08 3.100000000000D+01
     9.071990000000D+05 4.000000000000D+00
";

const REFUSED: &[u8] =
    b"     3.05           NAVIGATION DATA     MIXED               RINEX VERSION / TYPE\r
> comment that looks like a record                          COMMENT             \r
tool                agency              20240101 000000 UTC PGM / RUN BY / DATE \r
    18                                                      LEAP SECONDS        \r
                                                            END OF HEADERS\r
G13 2014 03 09 00 00 00-2.320348285139D-04 0.000000000000D+00 2.359223927328D-15\r
     1.600000000000D+01-3.125000000000D-02-3.176560887940D-09 3.141592652127D+00\r
     2.386048436165D-06 1.726198534016D-02 1.303851604462D-08 0.000000000000D+00\r
     1.920000000000D+03 6.103143095970D-05 0.000000000000D+00 4.881247878075D-05\r
     1.001159693817D+00 0.000000000000D+00 4.681337853655D-08 1.428630936784D-12\r
    -1.565779506716D-09 3.000000000000D+00 1.783000000000D+03 1.000000000000D+00\r
     2.000000000000D+00 4.700000000000D+01 3.119930624962D-08 5.280000000000D+02\r
     0.000000000000D+00 4.000000000000D+00\r
\r
G01 2024 01 03 11 01 52-9.322296828032D-04 0.000000000000D+00-5.828670879282D-16\r
     0.000000000000D+00-3.765000000000D+02 3.800158291846D-09-3.141592652127D+00\r
     5.028210580349D-05                  \xd9\xa5 6.103329360485D-05 6.740269403458D+03\r
     1.049600000000D+05-6.103329360485D-05 5.318140929459D-01-5.985051393509D-05\r
     8.070355424869D-01 9.846875000000D+02 3.657295198168D-08-6.428839215530D-12\r
     0.000000000000D+00 3.000000000000D+00 2.295000000000D+03 0.000000000000D+00\r
     8.192000000000D+03 2.800000000000D+01-1.117587089539D-08 5.120000000000D+02\r
     7.961630000000D+05 6.000000000000D+00\r
E36 2023 12 29 16 25 00 5.984587565763D-02 2.131628207280D-13 8.673617379884D-18\r
     7.650000000000D+02-2.187500000000D-01 1.037828944027D-08 3.063980785498D-01\r
    -1.883693039417D-05 0.000000000000D+00-6.103515625000D-05 0.000000000000D+00\r
     6.046800000000D+05 3.166496753693D-08-1.841834673270D+00 8.786097168922D-06\r
     0.000000000000D+00-6.022187500000D+02-2.194377118901D-08 0.000000000000D+00\r
    -1.321483616526D-11                  x 2.294000000000D+03\r
    -1.000000000000D+00 1.350000000000D+02-4.004687070847D-08 1.059379428625D-07\r
     0.000000000000D+00\r
G32 2023 12 31 00 00 00 9.599588811398D-04-1.366856849927D-09 2.942091015257D-15\r
     2.550000000000D+02-3.912187500000e+02-1.147690663066D-08 3.072127966461e-08\r
     1.862645149231e-09 1.369477111148D-01 0.000000000000D+00+4.386901855469D-05\r
     7.200000000000D+03-2.770498394966d-05 .5335701227545D+00 6.103329360485D-05\r
    -5.559088701215D-08-7.065000000000D+02 0.000000000000D+00 0.000000000000D+00\r
G01 2023 12 16 23 59 28-.5122274160385D-08 3.725176611624D-09-3.552713678801D-15\r
     1.690000000000D+02 0.000000000000D+00-7.959974422028D-09-2.918309231430D+00\r
    -6.103329360485D-05 2.379579208791D-01 8.288770914078D-06 5.364655364990D+03\r
     1.709280000000D+05 1.057051122189D-05 1.371344687176D+00 2.464279532433D-05\r
    -1.780157396050D+00 6.250000000000D-02 5.266505085362D-08 2.996055869181D-06\r
     0.000000000000D+002.000000000000D+000 2.293000000000D+030.                 \r
     2.000000000000D+00 0.000000000000D+00 0.000000000000D+00 1.690000000000D+02\r
     6.047990000000D+05 6.000000000000D+00\r
G32 2024 01 14 00 00 00 2.853730693460D-04-3.347508936713D-09 1.193489751472D-15\r
     3.600000000000D+01 7.173437500000E+02-3.571577341961D-13-1.764848721993D+00\r
     0.000000000000D+00 3.725825056899D-01 6.103329360485D-05 7.899372138977D+02\r
     0.000000000000D+00 6.103143095970D-05-3.141592652127D+00 .1467205584049D-04\r
     2.639474036300D+00-8.910625000000D+02-.2516215908641D+01-1.029615744771D-06\r
    -2.690826369433D-09 1.000000000000D+00 2.297000000000D+03 0.000000000000D+00\r
     3.200000000000D+01 4.700000000000e+01 .4656612873077D-09 7.540000000000D+02\r
     .9071990000000D+06 4.000000000000D+00\r
";

// What is to be read of one record.
#[derive(Clone, Copy)]
enum Want {
    Item { line: u32 },
    Refused { line: u32, reason: RecordFault },
    PassedOver { line: u32 },
}

fn is_wanted(read: &ItemRead, want: &Want) -> bool {
    match (read, want) {
        (ItemRead::Item { line, .. }, Want::Item { line: at }) => line == at,
        (
            ItemRead::Refused { line, reason },
            Want::Refused {
                line: at,
                reason: why,
            },
        ) => { line == at && reason == why }
        (ItemRead::PassedOver { line }, Want::PassedOver { line: at }) => line == at,
        _ => false,
    }
}

// A file, what is read of it, and its items as they are written in version 4 and in version 3;
// `None` where that is not looked at.
struct FileRow {
    name: &'static str,
    bytes: &'static [u8],
    reads: &'static [Want],
    four: Option<&'static [u8]>,
    three: Option<&'static [u8]>,
}

static FILES: [FileRow; 2] = [
    // A file of an independent program, with numbers in several spellings, and its items as that
    // program writes them.
    FileRow {
        name: "numbers in several spellings",
        bytes: FILE,
        reads: &[
            Want::PassedOver { line: 5 },
            Want::Item { line: 6 },
            Want::Item { line: 14 },
            Want::PassedOver { line: 22 },
            Want::PassedOver { line: 27 },
            Want::PassedOver { line: 28 },
        ],
        four: Some(FOUR),
        three: Some(THREE),
    },
    // Another one, with records that are refused and data sources that are no number.
    FileRow {
        name: "records that are refused",
        bytes: REFUSED,
        reads: &[
            Want::Item { line: 6 },
            Want::Refused {
                line: 15,
                reason: RecordFault::NotANumber,
            },
            Want::PassedOver { line: 23 },
            Want::Refused {
                line: 31,
                reason: RecordFault::Short,
            },
            Want::Item { line: 36 },
            Want::Item { line: 44 },
        ],
        four: None,
        three: None,
    },
];

// Single records behind a header.
static RECORDS: [FileRow; 7] = [
    FileRow {
        name: "GPS",
        bytes: GPS,
        reads: &[Want::Item { line: 5 }],
        four: None,
        three: Some(GPS),
    },
    FileRow {
        name: "GPS in other spellings",
        bytes: ODD_GPS,
        reads: &[Want::Item { line: 5 }],
        four: None,
        three: Some(GPS),
    },
    FileRow {
        name: "Galileo",
        bytes: GALILEO,
        reads: &[Want::Item { line: 5 }],
        four: None,
        three: Some(GALILEO),
    },
    FileRow {
        name: "F/NAV",
        bytes: FNAV,
        reads: &[Want::PassedOver { line: 5 }],
        four: None,
        three: Some(b""),
    },
    FileRow {
        name: "GLONASS",
        bytes: GLONASS,
        reads: &[Want::PassedOver { line: 5 }],
        four: None,
        three: Some(b""),
    },
    FileRow {
        name: "six lines",
        bytes: SIX_LINES,
        reads: &[Want::Refused {
            line: 5,
            reason: RecordFault::Short,
        }],
        four: None,
        three: Some(b""),
    },
    FileRow {
        name: "five lines",
        bytes: FIVE_LINES,
        reads: &[Want::PassedOver { line: 5 }],
        four: None,
        three: Some(b""),
    },
];

fn source_of(alloc: Global, start: &[u8], rest: &[u8]) -> Result<MemSource, AllocError> {
    let mut bytes = start.to_vec(alloc)?;
    bytes.extend_from_slice(rest)?;
    Ok(MemSource::new(bytes, Vec::new(alloc), Vec::new(alloc)))
}

// Whether the records of a file are those that are wanted; its items are written in both versions.
fn reads_to(
    source: &mut MemSource,
    wants: &[Want],
    four: &mut MemSink,
    three: &mut MemSink,
) -> bool {
    let mut records = RecordReader::new();
    match records.read_header::<ItemRead, Rinex3, MemSource>(&Rinex3, source) {
        Ok(()) => {}
        Err(_) => return false,
    }
    let mut all = true;
    for want in wants {
        match records.next_item::<ItemRead, Rinex3, MemSource>(&Rinex3, source) {
            Ok(Some(read)) => {
                all = all && is_wanted(&read, want);
                if let ItemRead::Item { item, .. } = read {
                    all = write_item(&item, four) == Ok(()) && all;
                    all = write_item3(&item, three) == Ok(()) && all;
                }
            }
            _ => all = false,
        }
    }
    let last: Result<Option<ItemRead>, LineFault> = records.next_item(&Rinex3, source);
    all && last == Ok(None)
}

// Whether a text is the one that is looked at.
fn is_text(text: &[u8], want: Option<&[u8]>) -> bool {
    match want {
        Some(want) => text == want,
        None => true,
    }
}

// Whether the file, behind such a start, is read and its items written so.
fn is_file(alloc: Global, start: &[u8], row: &FileRow) -> Result<bool, AllocError> {
    let mut four = MemSink::new(alloc, 3_000, Vec::new(alloc))?;
    let mut three = MemSink::new(alloc, 3_000, Vec::new(alloc))?;
    let mut source = source_of(alloc, start, row.bytes)?;
    let read = reads_to(&mut source, row.reads, &mut four, &mut three);
    Ok(read && is_text(four.bytes(), row.four) && is_text(three.bytes(), row.three))
}

// Bytes, and what a reader answers when it is asked for their header, once and again.
struct HeaderRow {
    name: &'static str,
    bytes: &'static [u8],
    answer: Result<(), HeaderFault>,
}

// The versions that are read, and others.
static HEADERS: [HeaderRow; 7] = [
    HeaderRow {
        name: "3.05",
        bytes: b"     3.05           N: GNSS NAV DATA    M: MIXED            RINEX VERSION / TYPE
                                                            END OF HEADER
",
        answer: Ok(()),
    },
    HeaderRow {
        name: "3.02 in the first column",
        bytes: b"3.02                N: GNSS NAV DATA    M: MIXED            RINEX VERSION / TYPE
                                                            END OF HEADER
",
        answer: Ok(()),
    },
    HeaderRow {
        name: "3.04 in the third column",
        bytes: b"  3.04              N: GNSS NAV DATA    M: MIXED            RINEX VERSION / TYPE
                                                            END OF HEADER
",
        answer: Ok(()),
    },
    HeaderRow {
        name: "3.01",
        bytes: b"     3.01           N: GNSS NAV DATA    M: MIXED            RINEX VERSION / TYPE
                                                            END OF HEADER
",
        answer: Err(HeaderFault::Version),
    },
    HeaderRow {
        name: "3.06",
        bytes: b"     3.06           N: GNSS NAV DATA    M: MIXED            RINEX VERSION / TYPE
                                                            END OF HEADER
",
        answer: Err(HeaderFault::Version),
    },
    HeaderRow {
        name: "4.01",
        bytes: b"     4.01           N: GNSS NAV DATA    M: MIXED            RINEX VERSION / TYPE
                                                            END OF HEADER
",
        answer: Err(HeaderFault::Version),
    },
    HeaderRow {
        name: "a capture",
        bytes: b"NAVCAP 1\n",
        answer: Err(HeaderFault::NotRinexNav),
    },
];

fn answers(alloc: Global, row: &HeaderRow) -> Result<[Result<(), HeaderFault>; 2], AllocError> {
    let mut source = source_of(alloc, row.bytes, b"")?;
    let mut records = RecordReader::new();
    let first = records.read_header::<ItemRead, Rinex3, MemSource>(&Rinex3, &mut source);
    let second = records.read_header::<ItemRead, Rinex3, MemSource>(&Rinex3, &mut source);
    Ok([first, second])
}

// Whether the header is written.
fn is_written(alloc: Global) -> Result<bool, AllocError> {
    let words = HeaderWords {
        date: *b"20240101 000000 UTC",
        leap: 18,
    };
    let mut sink = MemSink::new(alloc, 1_000, Vec::new(alloc))?;
    Ok(write_header3(&words, &mut sink) == Ok(()) && sink.bytes() == HEADER)
}

#[test]
fn files_and_headers(rt: HostRuntime) -> Result<(), Fail> {
    for row in &FILES {
        assert!(rt; is_file(rt.alloc(), b"", row)?, "{}", row.name);
    }
    for row in &RECORDS {
        assert!(rt; is_file(rt.alloc(), HEADER, row)?, "{}", row.name);
    }
    for row in &HEADERS {
        assert_eq!(rt; answers(rt.alloc(), row)?, [row.answer; 2], "{}", row.name);
    }
    assert!(rt; is_written(rt.alloc())?);
    Ok(())
}
