//! Records, headers and files of version 4, read and written: those of an independent program,
//! records with one fault each, a read that fails and sinks that fail.

use nav_bits::{S, U};
use nav_eph::{GalIon, IonContent, IonEph, Moment, NavItem, Sat, SentSecond, System};
use nav_io::{Failed, LineFault, MemSink, MemSource};
use raw_values::{
    ClockNumbers, E01_OF_ISSUE_0, E01_OF_ISSUE_378, E11_OF_ZEROES, G01_OF_WEEK_1783, G05_OF_ZEROES,
    G32_OF_WEEK_2294, GalIonNumbers, GalNumbers, GpsIonNumbers, GpsNumbers, OrbitANumbers,
    OrbitBNumbers, SideNumbers,
};
use rinex_read::{HeaderFault, ItemRead, Judged, RecordFault, RecordLines, RecordReader, Rinex4};
use rinex_write::{HeaderWords, write_header, write_item};
use std::alloc::{AllocError, Global};
use std::test::Fail;

const HEADER: &[u8] =
    b"     4.00           NAVIGATION DATA     M (MIXED)           RINEX VERSION / TYPE\r
any program                             20240101 000000 UTC PGM / RUN BY / DATE\r
    18                                                      LEAP SECONDS\r
                                                            END OF HEADER\r
";

const ZEROES: &[u8; 625] = b"> EPH G05 LNAV
G05 2023 12 31 00 00 00 0.000000000000D+00 0.000000000000D+00 0.000000000000D+00
     0.000000000000D+00 0.000000000000D+00 0.000000000000D+00 0.000000000000D+00
     0.000000000000D+00 0.000000000000D+00 0.000000000000D+00 0.000000000000D+00
     0.000000000000D+00 0.000000000000D+00 0.000000000000D+00 0.000000000000D+00
     0.000000000000D+00 0.000000000000D+00 0.000000000000D+00 0.000000000000D+00
     0.000000000000D+00 0.000000000000D+00 2.295000000000D+03 0.000000000000D+00
     2.000000000000D+00 0.000000000000D+00 0.000000000000D+00 0.000000000000D+00
     0.000000000000D+00 4.000000000000D+00
";

const IONOSPHERE: &[u8] = b"> ION E11 IFNV
    2023 12 31 00 00 08 0.000000000000D+00 0.000000000000D+00 0.000000000000D+00
     0.000000000000D+00
";

// An item: its numbers, and when it was sent.
#[derive(Clone, Copy)]
enum Item {
    Gps {
        numbers: GpsNumbers,
        sent: SentSecond,
    },
    Gal {
        numbers: GalNumbers,
        sent: SentSecond,
    },
    GpsIon {
        sat: u8,
        moment: u64,
        numbers: GpsIonNumbers,
    },
    GalIon {
        sat: u8,
        moment: u64,
        numbers: GalIonNumbers,
    },
}

// Whether an ionosphere is said by that satellite at that moment.
fn is_stated_by(ion: &IonEph, system: System, sat: u8, moment: u64) -> bool {
    ion.sat.system() == system && ion.sat.number() == sat && ion.moment.value() == moment
}

// Whether that is the item.
fn is_item(read: &NavItem, item: &Item) -> bool {
    match (read, item) {
        (NavItem::Gps(eph), Item::Gps { numbers, sent }) => numbers.are_of(eph)
            && eph.sent == *sent,
        (NavItem::Gal(eph), Item::Gal { numbers, sent }) => numbers.are_of(eph)
            && eph.sent == *sent,
        (
            NavItem::Ion(ion),
            Item::GpsIon {
                sat,
                moment,
                numbers,
            },
        ) => {
            is_stated_by(ion, System::Gps, *sat, *moment)
                && match &ion.content {
                    IonContent::Gps(content) => numbers.are_of(content),
                    IonContent::Gal(_) => false,
                }
        }
        (
            NavItem::Ion(ion),
            Item::GalIon {
                sat,
                moment,
                numbers,
            },
        ) => {
            is_stated_by(ion, System::Gal, *sat, *moment)
                && match &ion.content {
                    IonContent::Gal(content) => numbers.are_of(content),
                    IonContent::Gps(_) => false,
                }
        }
        _ => false,
    }
}

// What a reader is to answer.
#[derive(Clone, Copy)]
enum Want {
    Item { line: u32, item: Item },
    Refused { line: u32, reason: RecordFault },
    PassedOver { line: u32 },
    Fault(LineFault),
}

fn is_wanted(read: &Result<Option<ItemRead>, LineFault>, want: &Want) -> bool {
    match (read, want) {
        (
            Ok(Some(ItemRead::Item { line, item })),
            Want::Item {
                line: at,
                item: wanted,
            },
        ) => { line == at && is_item(item, wanted) }
        (
            Ok(Some(ItemRead::Refused { line, reason })),
            Want::Refused {
                line: at,
                reason: why,
            },
        ) => { line == at && reason == why }
        (Ok(Some(ItemRead::PassedOver { line })), Want::PassedOver { line: at }) => line == at,
        (Err(fault), Want::Fault(wanted)) => fault == wanted,
        _ => false,
    }
}

// A record behind a header, and the ionosphere of zeroes behind it where the record is followed, in
// pieces of so many bytes of which one read fails; what is read; and whether the record is written
// of what is read, as the ionosphere is.
struct FileRow {
    name: &'static str,
    record: &'static [u8],
    is_followed: bool,
    piece: u32,
    fails: u32,
    reads: &'static [Want],
    is_written: bool,
}

// More bytes than a header and two records have, and more calls than their source is asked.
const MOST: u32 = 2_000;

const ZEROES_READ: Want = Want::Item {
    line: 5,
    item: Item::Gps {
        numbers: G05_OF_ZEROES,
        sent: SentSecond::At(0),
    },
};

const IONOSPHERE_ITEM: Item = Item::GalIon {
    sat: 11,
    moment: 1_388_016_008,
    numbers: GalIonNumbers {
        ai0: 0,
        ai1: 0,
        ai2: 0,
        regions: 0,
    },
};

const G32_RECORD: &[u8] = b"> EPH G32 LNAV
G32 2023 12 31 01 00 00-4.332340322435D-04-9.094947017729D-13-3.080868893335D-15
     1.500000000000D+01 3.125000000000D-02 0.000000000000D+00-1.360235135139D+00
     1.444295048714D-05 0.000000000000D+00 5.374290049076D-05 8.191999998093D+03
     6.000000000000D+05-6.025098264217D-05-3.141592652127D+00-4.925392568111D-05
    -1.389771202463D+00-9.530937500000D+02-2.679791343197D+00 2.996055869181D-06
     1.285767843106D-11 0.000000000000D+00 2.294000000000D+03 1.000000000000D+00
     4.000000000000D+00 4.500000000000D+01 0.000000000000D+00 1.000000000000D+00
     6.047990000000D+05 6.000000000000D+00
";

const G01_RECORD: &[u8] = b"> EPH G01 LNAV
G01 2014 03 12 12 00 00 7.284949533641D-04 1.136868377216D-13 2.498001805407D-15
     4.100000000000D+01-4.687500000000D-01 0.000000000000D+00 1.462918079267D-09
     0.000000000000D+00 3.477371757617D-01-4.809349775314D-06 1.907348632812D-06
     4.535680000000D+05 1.862645149231D-09-2.679698272349D+00 0.000000000000D+00
     9.952962786565D-01 7.668125000000D+02 3.141592652127D+00 1.676087315764D-06
    -2.296524230881D-09 0.000000000000D+00 1.783000000000D+03 0.000000000000D+00
     2.800000000000D+00 4.400000000000D+01 2.002343535423D-08 4.100000000000D+01
     9.999000000000D+08 4.000000000000D+00
";

const G28_RECORD: &[u8] = b"> EPH G28 LNAV
G28 2024 01 03 19 23 12 0.000000000000D+00-3.047034624615D-09-5.551115123126D-17
     8.400000000000D+01-7.647187500000D+02 9.419678081688D-09-3.003913012212D+00
    -5.124136805534D-05 2.671400846448D-01 3.714486956596D-05 6.835924346924D+03
     3.462560000000D+05 1.862645149231D-09-1.488303028766D-01-5.401670932770D-08
    -1.462918079267D-09 0.000000000000D+00-9.715576708310D-01 1.000041655749D-11
     4.285892810353D-12 2.000000000000D+00 2.295000000000D+03 1.000000000000D+00
     8.192000000000D+03 0.000000000000D+00 5.122274160385D-08 8.400000000000D+01
     9.071990000000D+05 6.000000000000D+00
";

const E11_RECORD: &[u8] = b"> EPH E11 INAV
E11 2023 12 31 00 00 00 0.000000000000D+00 0.000000000000D+00 0.000000000000D+00
     5.000000000000D+00 0.000000000000D+00 0.000000000000D+00 0.000000000000D+00
     0.000000000000D+00 0.000000000000D+00 0.000000000000D+00 0.000000000000D+00
     0.000000000000D+00 0.000000000000D+00 0.000000000000D+00 0.000000000000D+00
     0.000000000000D+00 0.000000000000D+00 0.000000000000D+00 0.000000000000D+00
     0.000000000000D+00 5.170000000000D+02 2.295000000000D+03
     3.120000000000D+00 0.000000000000D+00 0.000000000000D+00 0.000000000000D+00
     8.000000000000D+00
";

const E01_RECORD: &[u8] = b"> EPH E01 INAV
E01 2024 01 05 14 00 00 6.249999994179D-02 1.151801143351D-08-5.377642775528D-17
     3.780000000000D+02-1.024000000000D+03 1.170263031867D-08-3.141592652127D+00
     6.103329360485D-05 0.000000000000D+00 0.000000000000D+00 5.252121177673D+03
     7.200000000000D+03 0.000000000000D+00 0.000000000000D+00 0.000000000000D+00
     3.141592652127D+00-2.819062500000D+02 0.000000000000D+00-1.684141579828D-08
    -2.925836158534D-09 5.170000000000D+02 2.296000000000D+03
     3.120000000000D+00 1.000000000000D+00-7.823109626770D-08-4.377216100693D-08
     9.071990000000D+05
";

const E01_RECORD_OF_ISSUE_0: &[u8] = b"> EPH E01 INAV
E01 2024 01 13 09 52 00 3.961718356004D-02-1.268490734674D-08-5.551115123126D-17
     0.000000000000D+00 6.247500000000D+02-1.069258824636D-08 1.705797309579D+00
     0.000000000000D+00 0.000000000000D+00-3.491342067719D-05 7.947019386292D+03
     5.555400000000D+05-6.103329360485D-05 3.511003390241D-08-4.040636122227D-05
     1.170334463414D-08 0.000000000000D+00-1.462918079267D-09 4.643050544549D-12
     3.571577341961D-13 5.170000000000D+02 2.296000000000D+03
    -1.000000000000D+00 6.600000000000D+01 1.187436282635D-07 6.053596735001D-09
     6.047990000000D+05
";

const G05_IONOSPHERE: &[u8] = b"> ION G05 LNAV
    2023 12 31 00 00 18 1.024454832077D-08 0.000000000000D+00 0.000000000000D+00
     0.000000000000D+00 9.011200000000D+04 0.000000000000D+00 0.000000000000D+00
     0.000000000000D+00 0.000000000000D+00
";

const G32_IONOSPHERE: &[u8] = b"> ION G32 LNAV
    2024 01 12 10 38 49-9.313225746155D-10-3.725290298462D-07-1.132488250732D-06
     2.384185791016D-07-5.529600000000D+04-2.129920000000D+05-8.388608000000D+06
     0.000000000000D+00 0.000000000000D+00
";

const E36_IONOSPHERE: &[u8] = b"> ION E36 IFNV
    2023 12 24 00 00 00 3.250000000000D+02-2.085937500000D+00 3.051757812500D-05
     0.000000000000D+00
";

const E01_IONOSPHERE: &[u8] = b"> ION E01 IFNV
    2023 12 31 00 00 00 4.217500000000D+02-4.000000000000D+00-3.051757812500D-05
     3.100000000000D+01
";

// The record of zeroes, of which the eighth line begins one of another kind.
const SHORT: &[u8] = b"> EPH G05 LNAV
G05 2023 12 31 00 00 00 0.000000000000D+00 0.000000000000D+00 0.000000000000D+00
     0.000000000000D+00 0.000000000000D+00 0.000000000000D+00 0.000000000000D+00
     0.000000000000D+00 0.000000000000D+00 0.000000000000D+00 0.000000000000D+00
     0.000000000000D+00 0.000000000000D+00 0.000000000000D+00 0.000000000000D+00
     0.000000000000D+00 0.000000000000D+00 0.000000000000D+00 0.000000000000D+00
     0.000000000000D+00 0.000000000000D+00 2.295000000000D+03 0.000000000000D+00
>    2.000000000000D+00 0.000000000000D+00 0.000000000000D+00 0.000000000000D+00
     0.000000000000D+00 4.000000000000D+00
";

// Records of an independent program and of zeroes: accuracies 0, 1 and 15 of GPS, 107 and 255 of
// Galileo, health numbers 0, 1 and 66, both fit intervals, known and unknown transmission times.
// Each is written again.
static FILES: [FileRow; 14] = [
    FileRow {
        name: "G05 of zeroes",
        record: ZEROES,
        is_followed: true,
        piece: MOST,
        fails: MOST,
        reads: &[
            ZEROES_READ,
            Want::Item {
                line: 14,
                item: IONOSPHERE_ITEM,
            },
        ],
        is_written: true,
    },
    FileRow {
        name: "G32",
        record: G32_RECORD,
        is_followed: true,
        piece: MOST,
        fails: MOST,
        reads: &[
            Want::Item {
                line: 5,
                item: Item::Gps {
                    numbers: G32_OF_WEEK_2294,
                    sent: SentSecond::At(604799),
                },
            },
            Want::Item {
                line: 14,
                item: IONOSPHERE_ITEM,
            },
        ],
        is_written: true,
    },
    FileRow {
        name: "G01",
        record: G01_RECORD,
        is_followed: true,
        piece: MOST,
        fails: MOST,
        reads: &[
            Want::Item {
                line: 5,
                item: Item::Gps {
                    numbers: G01_OF_WEEK_1783,
                    sent: SentSecond::Unknown,
                },
            },
            Want::Item {
                line: 14,
                item: IONOSPHERE_ITEM,
            },
        ],
        is_written: true,
    },
    FileRow {
        name: "G28",
        record: G28_RECORD,
        is_followed: true,
        piece: MOST,
        fails: MOST,
        reads: &[
            Want::Item {
                line: 5,
                item: Item::Gps {
                    numbers: GpsNumbers {
                        sat: 28,
                        week: 2295,
                        clock: ClockNumbers {
                            iodc: 84,
                            toc: 20562,
                            af2: -2,
                            af1: -26802,
                            af0: 0,
                            tgd: 110,
                        },
                        side: SideNumbers {
                            l2_code: 2,
                            ura: 15,
                            health: 0,
                            l2p: 1,
                        },
                        a: OrbitANumbers {
                            iode: 84,
                            crs: -24471,
                            delta_n: 26374,
                            m0: -2053370626,
                            cuc: -27510,
                            e: 2294715854,
                            cus: 19942,
                            root_a: 3583993104,
                            toe: 21641,
                        },
                        fit: 1,
                        b: OrbitBNumbers {
                            iode: 84,
                            cic: 1,
                            omega0: -101735227,
                            cis: -29,
                            i0: -1,
                            crc: 0,
                            omega: -664123087,
                            omega_dot: 28,
                            idot: 12,
                        },
                    },
                    sent: SentSecond::At(907199),
                },
            },
            Want::Item {
                line: 14,
                item: IONOSPHERE_ITEM,
            },
        ],
        is_written: true,
    },
    FileRow {
        name: "E11 of zeroes",
        record: E11_RECORD,
        is_followed: true,
        piece: MOST,
        fails: MOST,
        reads: &[
            Want::Item {
                line: 5,
                item: Item::Gal {
                    numbers: E11_OF_ZEROES,
                    sent: SentSecond::At(8),
                },
            },
            Want::Item {
                line: 14,
                item: IONOSPHERE_ITEM,
            },
        ],
        is_written: true,
    },
    FileRow {
        name: "E01 of issue 378",
        record: E01_RECORD,
        is_followed: true,
        piece: MOST,
        fails: MOST,
        reads: &[
            Want::Item {
                line: 5,
                item: Item::Gal {
                    numbers: E01_OF_ISSUE_378,
                    sent: SentSecond::At(907199),
                },
            },
            Want::Item {
                line: 14,
                item: IONOSPHERE_ITEM,
            },
        ],
        is_written: true,
    },
    FileRow {
        name: "E01 of issue 0",
        record: E01_RECORD_OF_ISSUE_0,
        is_followed: true,
        piece: MOST,
        fails: MOST,
        reads: &[
            Want::Item {
                line: 5,
                item: Item::Gal {
                    numbers: E01_OF_ISSUE_0,
                    sent: SentSecond::At(604799),
                },
            },
            Want::Item {
                line: 14,
                item: IONOSPHERE_ITEM,
            },
        ],
        is_written: true,
    },
    FileRow {
        name: "an ionosphere of G05",
        record: G05_IONOSPHERE,
        is_followed: true,
        piece: MOST,
        fails: MOST,
        reads: &[
            Want::Item {
                line: 5,
                item: Item::GpsIon {
                    sat: 5,
                    moment: 1_388_016_018,
                    numbers: GpsIonNumbers {
                        alpha0: 11,
                        alpha1: 0,
                        alpha2: 0,
                        alpha3: 0,
                        beta0: 44,
                        beta1: 0,
                        beta2: 0,
                        beta3: 0,
                    },
                },
            },
            Want::Item {
                line: 9,
                item: IONOSPHERE_ITEM,
            },
        ],
        is_written: true,
    },
    FileRow {
        name: "an ionosphere of G32",
        record: G32_IONOSPHERE,
        is_followed: true,
        piece: MOST,
        fails: MOST,
        reads: &[
            Want::Item {
                line: 5,
                item: Item::GpsIon {
                    sat: 32,
                    moment: 1_389_091_129,
                    numbers: GpsIonNumbers {
                        alpha0: -1,
                        alpha1: -50,
                        alpha2: -19,
                        alpha3: 4,
                        beta0: -27,
                        beta1: -13,
                        beta2: -128,
                        beta3: 0,
                    },
                },
            },
            Want::Item {
                line: 9,
                item: IONOSPHERE_ITEM,
            },
        ],
        is_written: true,
    },
    FileRow {
        name: "an ionosphere of E36",
        record: E36_IONOSPHERE,
        is_followed: true,
        piece: MOST,
        fails: MOST,
        reads: &[
            Want::Item {
                line: 5,
                item: Item::GalIon {
                    sat: 36,
                    moment: 1_387_411_200,
                    numbers: GalIonNumbers {
                        ai0: 1300,
                        ai1: -534,
                        ai2: 1,
                        regions: 0,
                    },
                },
            },
            Want::Item {
                line: 8,
                item: IONOSPHERE_ITEM,
            },
        ],
        is_written: true,
    },
    FileRow {
        name: "an ionosphere of E01",
        record: E01_IONOSPHERE,
        is_followed: true,
        piece: MOST,
        fails: MOST,
        reads: &[
            Want::Item {
                line: 5,
                item: Item::GalIon {
                    sat: 1,
                    moment: 1_388_016_000,
                    numbers: GalIonNumbers {
                        ai0: 1687,
                        ai1: -1024,
                        ai2: -1,
                        regions: 31,
                    },
                },
            },
            Want::Item {
                line: 8,
                item: IONOSPHERE_ITEM,
            },
        ],
        is_written: true,
    },
    FileRow {
        name: "an ionosphere of E11 of zeroes",
        record: IONOSPHERE,
        is_followed: true,
        piece: MOST,
        fails: MOST,
        reads: &[
            Want::Item {
                line: 5,
                item: IONOSPHERE_ITEM,
            },
            Want::Item {
                line: 8,
                item: IONOSPHERE_ITEM,
            },
        ],
        is_written: true,
    },
    // A record that ends after seven lines and one of another kind.
    FileRow {
        name: "a record of seven lines",
        record: SHORT,
        is_followed: true,
        piece: MOST,
        fails: MOST,
        reads: &[
            Want::Refused {
                line: 5,
                reason: RecordFault::Short,
            },
            Want::PassedOver { line: 12 },
            Want::Item {
                line: 14,
                item: IONOSPHERE_ITEM,
            },
        ],
        is_written: false,
    },
    // In pieces of 100 bytes of which the sixth read fails: a header of four lines takes four of
    // them.
    FileRow {
        name: "a read that fails",
        record: ZEROES,
        is_followed: false,
        piece: 100,
        fails: 5,
        reads: &[Want::Fault(LineFault::ReadFault), ZEROES_READ],
        is_written: true,
    },
];

// What stands behind the record of a row.
fn next_record(row: &FileRow) -> &'static [u8] {
    if row.is_followed { IONOSPHERE } else { b"" }
}

// A header and the records of a row as one source.
fn source_of(alloc: Global, row: &FileRow) -> Result<MemSource, AllocError> {
    let mut bytes = HEADER.to_vec(alloc)?;
    bytes.extend_from_slice(row.record)?;
    bytes.extend_from_slice(next_record(row))?;
    let cuts = vec![in alloc; row.piece; 20]?;
    Ok(MemSource::new(bytes, cuts, [row.fails].to_vec(alloc)?))
}

// Whether the source gives a header, these answers, and from then on the end; the items are
// written.
fn gives(source: &mut MemSource, want: &[Want], sink: &mut MemSink) -> bool {
    let mut records = RecordReader::new();
    match records.read_header::<ItemRead, Rinex4, MemSource>(&Rinex4, source) {
        Ok(()) => {}
        Err(_) => return false,
    }
    let mut all = true;
    for read in want {
        let next = records.next_item(&Rinex4, source);
        all = all && is_wanted(&next, read);
        if let Ok(Some(ItemRead::Item { item, .. })) = next {
            all = write_item(&item, sink) == Ok(()) && all;
        }
    }
    let first: Result<Option<ItemRead>, LineFault> = records.next_item(&Rinex4, source);
    let second: Result<Option<ItemRead>, LineFault> = records.next_item(&Rinex4, source);
    all && first == Ok(None) && second == Ok(None)
}

// Whether the records of a row are read so, and their items written so.
fn is_file(alloc: Global, row: &FileRow) -> Result<bool, AllocError> {
    let mut sink = MemSink::new(alloc, 2_000, Vec::new(alloc))?;
    let mut source = source_of(alloc, row)?;
    let read = gives(&mut source, row.reads, &mut sink);
    let first = if row.is_written { row.record } else { b"" };
    Ok(read && sink.bytes().strip_prefix(first) == Some(next_record(row)))
}

// The record of zeroes with other characters from one place on, and what it is to stand for.
struct ChangeRow {
    name: &'static str,
    place: usize,
    characters: &'static [u8],
    judged: Change,
}

enum Change {
    // An ephemeris of zeroes with this transmission time.
    Item(SentSecond),
    Refused(RecordFault),
    PassedOver,
}

const BLANK: &[u8] = b"                   ";

static CHANGES: [ChangeRow; 20] = [
    ChangeRow {
        name: "satellite 33 in the first line",
        place: 7,
        characters: b"33",
        judged: Change::Refused(RecordFault::BadSat),
    },
    ChangeRow {
        name: "another satellite in the second line",
        place: 15,
        characters: b"G06",
        judged: Change::Refused(RecordFault::BadSat),
    },
    ChangeRow {
        name: "a blank in the satellite",
        place: 7,
        characters: b" 5",
        judged: Change::Refused(RecordFault::BadSat),
    },
    ChangeRow {
        name: "a letter in a number",
        place: 101,
        characters: b"x",
        judged: Change::Refused(RecordFault::NotANumber),
    },
    ChangeRow {
        name: "a letter in the day",
        place: 27,
        characters: b"D2",
        judged: Change::Refused(RecordFault::NotANumber),
    },
    ChangeRow {
        name: "a blank number",
        place: 119,
        characters: BLANK,
        judged: Change::Refused(RecordFault::Blank),
    },
    ChangeRow {
        name: "an issue past its range",
        place: 562,
        characters: b" 1.024000000000D+03",
        judged: Change::Refused(RecordFault::OutOfRange),
    },
    ChangeRow {
        name: "a health past its range",
        place: 524,
        characters: b" 6.400000000000D+01",
        judged: Change::Refused(RecordFault::OutOfRange),
    },
    ChangeRow {
        name: "a day 32",
        place: 27,
        characters: b"32",
        judged: Change::Refused(RecordFault::NoSuchDate),
    },
    ChangeRow {
        name: "a year before the epoch",
        place: 19,
        characters: b"1979",
        judged: Change::Refused(RecordFault::Week),
    },
    ChangeRow {
        name: "a year 0",
        place: 19,
        characters: b"0000",
        judged: Change::Refused(RecordFault::Week),
    },
    ChangeRow {
        name: "a fit interval of two hours",
        place: 605,
        characters: b" 2.000000000000D+00",
        judged: Change::Refused(RecordFault::Fit),
    },
    ChangeRow {
        name: "an epoch one second on",
        place: 36,
        characters: b"01",
        judged: Change::Refused(RecordFault::EpochStep),
    },
    ChangeRow {
        name: "an epoch far from toe",
        place: 27,
        characters: b"23",
        judged: Change::Refused(RecordFault::EpochFar),
    },
    ChangeRow {
        name: "a blank fit interval",
        place: 605,
        characters: BLANK,
        judged: Change::Item(SentSecond::At(0)),
    },
    ChangeRow {
        name: "an unknown transmission time",
        place: 586,
        characters: b" 9.999000000000e+08",
        judged: Change::Item(SentSecond::Unknown),
    },
    ChangeRow {
        name: "a blank transmission time",
        place: 586,
        characters: BLANK,
        judged: Change::Item(SentSecond::Unknown),
    },
    ChangeRow {
        name: "a blank L2 flag",
        place: 443,
        characters: BLANK,
        judged: Change::Item(SentSecond::At(0)),
    },
    ChangeRow {
        name: "another kind of record",
        place: 2,
        characters: b"STO",
        judged: Change::PassedOver,
    },
    ChangeRow {
        name: "another system",
        place: 6,
        characters: b"R",
        judged: Change::PassedOver,
    },
];

// Whether the changed record stands for what it is to.
fn is_change(row: &ChangeRow) -> bool {
    let mut record = *ZEROES;
    for (slot, character) in record.iter_mut().skip(row.place).zip(row.characters) {
        *slot = *character;
    }
    let mut lines = RecordLines::new();
    for line in record.split(|c| *c == b'\n') {
        lines.push(line);
    }
    match (lines.judge(), &row.judged) {
        (Judged::Item(NavItem::Gps(eph)), Change::Item(sent)) => {
            G05_OF_ZEROES.are_of(&eph) && eph.sent == *sent
        }
        (Judged::Refused(reason), Change::Refused(why)) => reason == *why,
        (Judged::PassedOver, Change::PassedOver) => true,
        _ => false,
    }
}

// Bytes, and what a reader answers when it is asked for their header, once and again.
struct HeaderRow {
    name: &'static str,
    bytes: &'static [u8],
    answer: Result<(), HeaderFault>,
}

static HEADERS: [HeaderRow; 6] = [
    HeaderRow {
        name: "4.00 with CR LF",
        bytes: HEADER,
        answer: Ok(()),
    },
    HeaderRow {
        name: "no byte",
        bytes: b"",
        answer: Err(HeaderFault::NotRinexNav),
    },
    HeaderRow {
        name: "a capture",
        bytes: b"NAVCAP 1\n",
        answer: Err(HeaderFault::NotRinexNav),
    },
    HeaderRow {
        name: "a header with no end",
        bytes: b"     4.01           N: GNSS NAV DATA    M: MIXED            RINEX VERSION / TYPE\n",
        answer: Err(HeaderFault::NotRinexNav),
    },
    HeaderRow {
        name: "observations",
        bytes: b"     4.01           OBSERVATION DATA    M: MIXED            RINEX VERSION / TYPE
                                                            END OF HEADER
",
        answer: Err(HeaderFault::NotRinexNav),
    },
    HeaderRow {
        name: "3.05",
        bytes: b"     3.05           N: GNSS NAV DATA    M: MIXED            RINEX VERSION / TYPE
                                                            END OF HEADER
",
        answer: Err(HeaderFault::Version),
    },
];

fn answers(alloc: Global, row: &HeaderRow) -> Result<[Result<(), HeaderFault>; 2], AllocError> {
    let bytes = row.bytes.to_vec(alloc)?;
    let mut source = MemSource::new(bytes, Vec::new(alloc), Vec::new(alloc));
    let mut records = RecordReader::new();
    let first = records.read_header::<ItemRead, Rinex4, MemSource>(&Rinex4, &mut source);
    let second = records.read_header::<ItemRead, Rinex4, MemSource>(&Rinex4, &mut source);
    Ok([first, second])
}

// The leap seconds of a header, the write to its sink that fails, the answers of the header and of
// the ionosphere of zeroes behind it, and what the sink has: what is behind a failed write is still
// written.
struct WrittenRow {
    name: &'static str,
    leap: u8,
    fails: u32,
    header: Result<(), Failed>,
    record: Result<(), Failed>,
    bytes: &'static [u8],
}

static WRITTEN: [WrittenRow; 3] = [
    WrittenRow {
        name: "no write fails",
        leap: 18,
        fails: 9,
        header: Ok(()),
        record: Ok(()),
        bytes: b"     4.01           N: GNSS NAV DATA    M: MIXED            RINEX VERSION / TYPE
navbridge                               20240101 000000 UTC PGM / RUN BY / DATE
    18                                                      LEAP SECONDS
                                                            END OF HEADER
> ION E11 IFNV
    2023 12 31 00 00 08 0.000000000000D+00 0.000000000000D+00 0.000000000000D+00
     0.000000000000D+00
",
    },
    WrittenRow {
        name: "the second write fails",
        leap: 5,
        fails: 1,
        header: Ok(()),
        record: Err(Failed),
        bytes: b"     4.01           N: GNSS NAV DATA    M: MIXED            RINEX VERSION / TYPE
navbridge                               20240101 000000 UTC PGM / RUN BY / DATE
     5                                                      LEAP SECONDS
                                                            END OF HEADER
",
    },
    WrittenRow {
        name: "the first write fails",
        leap: 18,
        fails: 0,
        header: Err(Failed),
        record: Ok(()),
        bytes: b"> ION E11 IFNV
    2023 12 31 00 00 08 0.000000000000D+00 0.000000000000D+00 0.000000000000D+00
     0.000000000000D+00
",
    },
];

// The ionosphere of zeroes.
fn ionosphere() -> Option<NavItem> {
    let content = IonContent::Gal(GalIon {
        ai0: U::from_bits(0),
        ai1: S::from_bits(0),
        ai2: S::from_bits(0),
        regions: U::from_bits(0),
    });
    let moment = Moment::new(1_388_016_008)?;
    Some(NavItem::Ion(IonEph::new(Sat::new(System::Gal, 11)?, moment, content)?))
}

fn is_written(alloc: Global, row: &WrittenRow, item: &NavItem) -> Result<bool, AllocError> {
    let words = HeaderWords {
        date: *b"20240101 000000 UTC",
        leap: row.leap.min(99),
    };
    let mut sink = MemSink::new(alloc, 1_000, [row.fails].to_vec(alloc)?)?;
    let header = write_header(&words, &mut sink);
    let record = write_item(item, &mut sink);
    Ok(header == row.header && record == row.record && sink.bytes() == row.bytes)
}

#[test]
fn files_changes_and_headers(rt: HostRuntime) -> Result<(), Fail> {
    let item = ionosphere().ok_or("an ionosphere")?;
    for row in &FILES {
        assert!(rt; is_file(rt.alloc(), row)?, "{}", row.name);
    }
    for row in &CHANGES {
        assert!(rt; is_change(row), "{}", row.name);
    }
    for row in &HEADERS {
        assert_eq!(rt; answers(rt.alloc(), row)?, [row.answer; 2], "{}", row.name);
    }
    for row in &WRITTEN {
        assert!(rt; is_written(rt.alloc(), row, &item)?, "{}", row.name);
    }
    Ok(())
}
