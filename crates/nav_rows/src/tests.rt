//! Messages of each kind and their records, as an independent program writes them.

ghost use Rattle.rinex_write.specs.Columns.{AreFields};
ghost use Rattle.nav_rows.specs.Kinds.{IsKind};

use crate::encode::message_of_row;
use crate::kind::{Kind, kind_of};
use crate::order::are_alike;
use crate::read::read_record;
use crate::row::{Row, row_of_message, write_record};
use crate::tables::table_1046;
use nav_eph::RefWeek;
use nav_io::MemSink;
use nav_tables::{read_message, write_message};
use rinex_write::NOT_KNOWN;
use std::alloc::Global;

// A message of a satellite in hexadecimal digits, bytes 0 behind it, and its record.
struct MessageRow {
    name: &'static str,
    message: u16,
    satellite: u8,
    payload: &'static [u8],
    record: &'static [u8],
}

const MESSAGES: [MessageRow; 12] = [
    MessageRow {
        name: "E15 FNAV",
        message: 1045,
        satellite: 15,
        payload: b"4153d3de6eff12d80004e000038697d17b85846b79e05ab25e0002fa9c085c1c\
            e94ba5637273b5a9e20d33d9df00000000001ac501edbdb1dffffff006800000",
        record: b"> EPH E15 FNAV\n\
            E15 2024 01 07 00 00 00-2.964037109632D-02-1.490114698299D-08 3.295974604356D-17\n\
            \x20    6.220000000000D+02-2.449687500000D+02 2.456530895801D-09 2.947416972433D+00\n\
            \x20   -6.103515625000D-05 3.723679211689D-01 3.445893526077D-06 2.653168388367D+03\n\
            \x20    6.025800000000D+05 4.320964217186D-05 8.056506096446D-01-7.629394531250D-06\n\
            \x20    1.462918079267D-09-6.695000000000D+02 7.573891996831D-01-3.571577341961D-13\n\
            \x20    4.307322274405D-10 2.580000000000D+02 2.295000000000D+03\n\
            \x20   -1.000000000000D+00 4.000000000000D+01 2.328306436539D-10 0.000000000000D+00\n\
            \x20    9.999000000000D+08\n",
    },
    MessageRow {
        name: "E25 FNAV",
        message: 1045,
        satellite: 25,
        payload: b"415653dc00ff86e14727ff5d27b08fbed6b54402040000002200000000002500\
            039a08f23507c1e7f000000017cfbe796ef2f4bd51f7e3a07a02880802000000",
        record: b"> EPH E25 FNAV\n\
            E25 2024 01 03 15 14 00-1.939416368259D-02-2.962252665384D-10 5.377642775528D-17\n\
            \x20    0.000000000000D+00-6.614687500000D+02 4.607334771129D-11 1.170334463414D-08\n\
            \x20   -6.103515625000D-05 1.047737896442D-09 3.051757812500D-05 7.376279565811D+03\n\
            \x20    2.532000000000D+05 1.454167068005D-05 1.462918079267D-09 5.959533154964D-05\n\
            \x20   -5.991216693309D-01 6.066562500000D+02 7.729563011439D-01-2.243339158366D-06\n\
            \x20   -2.768686755488D-09 2.580000000000D+02 2.295000000000D+03\n\
            \x20   -1.000000000000D+00 3.200000000000D+01-1.192092895508D-07 0.000000000000D+00\n\
            \x20    9.999000000000D+08\n",
    },
    MessageRow {
        name: "R25 FDMA",
        message: 1020,
        satellite: 25,
        payload: b"3fc650cf7c3efffffec00000313352e544918ff900000987b1ec79fff4505c7f\
            2c00040000000000020000000000000000000000000000000000000000000000",
        record: b"> EPH R25 FDMA\n\
            R25 2024 01 02 12 30 00-6.131073459983D-04-9.304130799137D-10 2.178600000000D+05\n\
            \x20   -1.638400048828D+04-7.999998092651D+00-9.313225746155D-10 0.000000000000D+00\n\
            \x20    1.755356201172D+04 3.207737922668D+00-8.381903171539D-09 1.000000000000D+00\n\
            \x20   -1.969923339844D+03 8.583068847656D-06-8.381903171539D-09 2.200000000000D+01\n\
            \x20    4.100000000000D+01-1.117587089539D-08 0.000000000000D+00 2.000000000000D+00\n",
    },
    MessageRow {
        name: "R02 FDMA",
        message: 1020,
        satellite: 2,
        payload: b"3fc080af24037ffffe7fffffd1776a03000000000924a3b1035d2ec3200c0980\
            1990020000000000020000000000000000000000000000000000000000000000",
        record: b"> EPH R02 FDMA\n\
            R02 2024 01 01 21 45 00-9.183585643768D-05-4.547473508865D-11 1.301400000000D+05\n\
            \x20    3.276799902344D+04 7.999998092651D+00-9.313225746155D-10 0.000000000000D+00\n\
            \x20    0.000000000000D+00 7.463381767273D+00 0.000000000000D+00-7.000000000000D+00\n\
            \x20   -1.254736376953D+04 5.714445114136D-01 1.303851604462D-08 1.200000000000D+01\n\
            \x20    1.000000000000D+02 0.000000000000D+00 9.000000000000D+00 2.000000000000D+00\n",
    },
    MessageRow {
        name: "C54 D1",
        message: 1042,
        satellite: 54,
        payload: b"412d875614e17c0001ffffe000f8868f00355ffffefffffffe704409e4d198e6\
            f5000000000591d7bd98000000010bdefc773e91b8e662d96cd34a53d2005d38",
        record: b"> EPH C54 D1\n\
            C54 2023 12 31 00 00 00-5.702499765903D-05-7.275957614183D-12-1.355252715607D-20\n\
            \x20    3.100000000000D+01 1.067343750000D+02-3.571577341961D-13 3.141592652127D+00\n\
            \x20    2.676621079445D-05 3.864774678368D-02-2.388283610344D-05 0.000000000000D+00\n\
            \x20    1.825040000000D+05 5.905609577894D-05 0.000000000000D+00 3.193225711584D-05\n\
            \x20   -8.674235675591D-02-1.137609375000D+03-2.861861631796D+00 9.669231333725D-07\n\
            \x20   -2.033656138513D-09 0.000000000000D+00 9.390000000000D+02 0.000000000000D+00\n\
            \x20    2.000000000000D+00 0.000000000000D+00 5.000000000000D-10-1.780000000000D-08\n\
            \x20    9.999000000000D+08 0.000000000000D+00\n",
    },
    MessageRow {
        name: "C49 D1",
        message: 1042,
        satellite: 49,
        payload: b"412c475702f0e40001157c392462d028ac54766145f7ea1f84b3fdcd6cd45def\
            1874b455e1d266b01c18000000060000de9e241180002559020214a7adce3800",
        record: b"> EPH C49 D1\n\
            C49 2024 01 07 00 00 00 7.538842037320D-04-2.198383697305D-10-1.272582299955D-17\n\
            \x20    2.500000000000D+01-1.879078125000D+03 4.446613790741D-09-9.922348080482D-02\n\
            \x20    4.291301593184D-05 3.024418571731D-01-1.612165942788D-05 5.300335475922D+03\n\
            \x20    6.029680000000D+05 8.372589945793D-07 1.462918079267D-09-6.103515625000D-05\n\
            \x20   -8.193239812068D-01-2.048000000000D+03-2.616584721176D+00 1.933860195897D-06\n\
            \x20    5.375223899651D-10 0.000000000000D+00 9.390000000000D+02 0.000000000000D+00\n\
            \x20    6.400000000000D+01 0.000000000000D+00 2.270000000000D-08-5.120000000000D-08\n\
            \x20    9.999000000000D+08 2.100000000000D+01\n",
    },
    MessageRow {
        name: "C59 D2",
        message: 1042,
        satellite: 59,
        payload: b"412ec756239f9d42b988e7be0bb86732070ad5f2f18a9c6a960000000000001c\
            8e574bd56fca07a3758a5e705690cc370aa8ddea80005aa523abf31183aff3b0",
        record: b"> EPH C59 D2\n\
            C59 2024 01 03 19 47 44-5.462409462780D-04-1.411980754540D-09-6.464555453445D-18\n\
            \x20    7.000000000000D+00-4.903437500000D+02-5.971677315759D-10-1.440579748832D+00\n\
            \x20    0.000000000000D+00 0.000000000000D+00 2.723280340433D-05 5.963833736420D+03\n\
            \x20    3.286560000000D+05 2.639088779688D-05-2.562123306400D+00 2.434430643916D-05\n\
            \x20    2.616268327106D-01-2.047984375000D+03 2.615874174551D+00-1.210742575145D-06\n\
            \x20    6.625275969337D-10 0.000000000000D+00 9.390000000000D+02 0.000000000000D+00\n\
            \x20    2.800000000000D+00 0.000000000000D+00-2.570000000000D-08 2.360000000000D-08\n\
            \x20    9.999000000000D+08 0.000000000000D+00\n",
    },
    MessageRow {
        name: "C60 D2",
        message: 1042,
        satellite: 60,
        payload: b"412f07561f3280800220dfffff800000040002000356ed911d00000000000048\
            d487792f7608986a5e914d20580b2f37ec034ca200007ffffbffc00003eb7802",
        record: b"> EPH C60 D2\n\
            C60 2024 01 01 12 24 40-9.765625000000D-04 1.862644261053D-09 1.775381057445D-18\n\
            \x20    0.000000000000D+00-2.047984375000D+03 3.571577341961D-13-2.074825654074D+00\n\
            \x20   -6.103515625000D-05 0.000000000000D+00-5.261413753033D-05 1.913185394287D+03\n\
            \x20    2.816480000000D+05-4.295818507671D-05 2.044037641938D+00-2.488913014531D-05\n\
            \x20   -4.905575311988D-01 1.562500000000D-02-5.993575370758D-06 5.357366012941D-12\n\
            \x20   -1.467918287546D-10 0.000000000000D+00 9.390000000000D+02 0.000000000000D+00\n\
            \x20    2.000000000000D+00 1.000000000000D+00-3.290000000000D-08-5.120000000000D-08\n\
            \x20    9.999000000000D+08 0.000000000000D+00\n",
    },
    MessageRow {
        name: "J06 LNAV",
        message: 1044,
        satellite: 6,
        payload: b"41464747e000017e8ec001fffa81685d5a010b9171c2954b49b2a8400000064e\
            9fff7c8d9a7208e89200000000daaa44408109dae0b40008f7f073bf60000000",
        record: b"> EPH J06 LNAV\n\
            J06 2024 01 10 09 05 52 9.655579924583D-04 1.136868377216D-13-8.881784197001D-16\n\
            \x20    0.000000000000D+00 1.023937500000D+03-8.745364279525D-09 5.727981101290D-01\n\
            \x20   -1.318007707596D-05 2.200113183353D-01 5.181506276131D-05 5.120000019073D+02\n\
            \x20    6.047840000000D+05-6.146728992462D-08 8.688669820145D-01 2.772361040115D-05\n\
            \x20   -3.141592653590D+00 4.373125000000D+02-2.722803817720D+00 2.778828963666D-06\n\
            \x20    0.000000000000D+00 2.000000000000D+00 2.295000000000D+03 1.000000000000D+00\n\
            \x20    8.192000000000D+03 1.000000000000D+00-2.328306436539D-08 1.014000000000D+03\n\
            \x20    9.999000000000D+08 0.000000000000D+00\n",
    },
    MessageRow {
        name: "J03 LNAV",
        message: 1044,
        satellite: 3,
        payload: b"4143792c7f7ffffffffffa4990815d7ab98018a2901f164f360000116ca48c70\
            620004494f53cc867c5f5f53920002aad5f4feaccca40010f700200000000000",
        record: b"> EPH J03 LNAV\n\
            J03 2023 12 29 17 52 00-4.656612873077D-10 3.725176611624D-09 3.524958103185D-15\n\
            \x20    2.540000000000D+02-8.768750000000D+02 2.956908881409D-09 2.323825107500D+00\n\
            \x20    1.937896013260D-05 1.517927052919D-02-6.103515625000D-05 1.393950862885D+02\n\
            \x20    1.150720000000D+05-6.103329360485D-05 4.498237432273D-01 1.603178679943D-05\n\
            \x20    5.851975258145D-01-1.024000000000D+03-2.093357500925D+00-1.984890892959D-06\n\
            \x20    3.571577341961D-13 0.000000000000D+00 2.295000000000D+03 1.000000000000D+00\n\
            \x20    2.000000000000D+00 0.000000000000D+00                    0.000000000000D+00\n\
            \x20    9.999000000000D+08 0.000000000000D+00\n",
    },
    MessageRow {
        name: "I14 LNAV",
        message: 1041,
        satellite: 14,
        payload: b"41138f783dd484823800000322c746960002cb71890100052ed937f5f650d361\
            7093b0000049edd06c00000000997b258734d4c8fa1b38c99dfc86b800000000",
        record: b"> EPH I14 LNAV\n\
            I14 2023 12 31 00 00 00-9.470796212554D-04 5.247784429230D-10-8.881784197001D-16\n\
            \x20    9.600000000000D+01-6.424375000000D+02-1.829960510915D-06 2.391531358320D+00\n\
            \x20   -2.506375312805D-05 1.443925029598D-01-2.837181091309D-05 0.000000000000D+00\n\
            \x20    0.000000000000D+00 3.051757812500D-05-2.516193806875D+00-4.298612475395D-05\n\
            \x20    2.540188924219D+00-8.680625000000D+02 1.296672528096D+00 6.371722550677D-07\n\
            \x20    1.538278361183D-09 0.000000000000D+00 2.295000000000D+03 0.000000000000D+00\n\
            \x20    2.000000000000D+00 2.000000000000D+00-2.607703208923D-08 0.000000000000D+00\n\
            \x20    9.999000000000D+08\n",
    },
    MessageRow {
        name: "I04 LNAV",
        message: 1041,
        satellite: 4,
        payload: b"41110f7fdb56c3fffdc00c8d0a000013b0028003424900085d8d36a66cffffff\
            ffffff541e00000001c5704b6a7ffffffe0000000000001dfffffffc00000000",
        record: b"> EPH I04 LNAV\n\
            I04 2024 01 07 03 34 08-1.748139038682D-05 4.655476004700D-10-2.498001805407D-16\n\
            \x20    5.900000000000D+01 4.111875000000D+02-2.996054797708D-06-1.462918079267D-09\n\
            \x20   -6.103143095970D-05 1.164153218269D-10-4.523247480392D-05 6.318036823273D+03\n\
            \x20    3.445440000000D+05 3.052130341530D-05 3.141592650664D+00 5.573034286499D-06\n\
            \x20    3.141592652127D+00-3.566875000000D+02 0.000000000000D+00 1.000041655749D-11\n\
            \x20   -3.571577341961D-13 0.000000000000D+00 2.295000000000D+03 0.000000000000D+00\n\
            \x20    2.000000000000D+00 2.000000000000D+00 3.073364496231D-08 0.000000000000D+00\n\
            \x20    9.999000000000D+08\n",
    },
];

// Whether the record of a message is the row's.
fn is_record(row: &MessageRow, alloc: Global) -> Option<bool> {
    let mut payload = [0; 64];
    hex::decode_to_slice(row.payload, &mut payload).ok()?;
    let kind = kind_of(row.message, row.satellite)?;
    let reference = RefWeek::new(2295)?;
    let ephemeris = row_of_message(&kind, &payload, reference).ok()?;
    let mut sink = MemSink::new(alloc, 10_000, Vec::new(alloc)).ok()?;
    write_record(&kind, &ephemeris, &mut sink).ok()?;
    Some(sink.bytes() == row.record)
}

// Message 1046 of a satellite.
const GALILEO: &[u8] = b"416293deaf630f1a00131cd3adaefd33a5fff8007ffffc0001fff8f10b412083\
    0962e1c93e175ca2b000000088001fffff00180007fffffffffffff8075a38";

// Whether a message is written again as it was read.
fn comes_back() -> Option<bool> {
    let table = table_1046();
    let mut payload = [0; 63];
    hex::decode_to_slice(GALILEO, &mut payload).ok()?;
    let numbers = read_message(&table, &payload).ok()?;
    let mut again = [0; 63];
    write_message(&table, numbers.as_slice(), &mut again);
    Some(again == payload)
}

// The lines of a text, filled with blanks, and how many they are.
fn lines_of(text: &[u8]) -> ([[u8; 80]; 10], usize) {
    let mut lines = [[b' '; 80]; 10];
    let mut line = 0;
    let mut place = 0;
    for c in text {
        if *c == b'\n' {
            line = if line < 10 { line + 1 } else { line };
            place = 0;
        } else if line < 10 && place < 80 {
            lines[line][place] = *c;
            place += 1;
        }
    }
    (lines, line)
}

// Whether a row is the same as another.
fn is_same(row: &Row, other: &Row) -> bool {
    row.number == other.number
        && row.moment.value() == other.moment.value()
        && row.columns.as_slice() == other.columns.as_slice()
}

// Whether the record of a row is read as that row.
fn is_read(kind: &Kind, row: &Row, record: &[u8]) -> bool
    requires kind { IsKind kind.now }
    requires fields { AreFields kind.now.layout.columns.now row.now.columns.items }
{
    let (lines, count) = lines_of(record);
    if count < 1 || count > 10 {
        return false;
    }
    let all = &lines[..];
    match read_record(kind, &all[0], &all[1..count]) {
        Ok(again) => is_same(row, &again) && are_alike(kind, row, kind, &again),
        Err(_) => false,
    }
}

// Whether the message of a row gives that row near its week.
fn is_sent(kind: &Kind, row: &Row) -> Option<bool>
    requires kind { IsKind kind.now }
    requires fields { AreFields kind.now.layout.columns.now row.now.columns.items }
{
    let mut payload = [0; 64];
    let count = kind.table.bytes;
    if count > 64 {
        return None;
    }
    message_of_row(kind, row, &mut payload[..count]).ok()?;
    let near = RefWeek::new(row.moment.week())?;
    let again = row_of_message(kind, &payload, near).ok()?;
    Some(is_same(row, &again))
}

// Random bytes with a message number.
fn random_payload(state: &mut u64, message: u16) -> [u8; 64] {
    let mut payload = [0; 64];
    for i in 0..64 {
        *state = state
            .wrapping_mul(6_364_136_223_846_793_005)
            .wrapping_add(1_442_695_040_888_963_407);
        payload[i] = (*state >> 56) as u8;
    }
    payload[0] = (message / 16 % 256) as u8;
    payload[1] = (message % 16 * 16) as u8 + payload[1] % 16;
    payload
}

// Whether the row of a message comes back by its record and by its message; None where there is
// none.
fn comes_back_whole(message: u16, payload: &[u8; 64], alloc: Global) -> Option<bool> {
    let satellite = payload[1] % 16 * 4 + payload[2] / 64;
    let kind = kind_of(message, satellite)?;
    let row = row_of_message(&kind, payload, RefWeek::new(2295)?).ok()?;
    let mut sink = MemSink::new(alloc, 10_000, Vec::new(alloc)).ok()?;
    write_record(&kind, &row, &mut sink).ok()?;
    Some(is_read(&kind, &row, sink.bytes()) && is_sent(&kind, &row)?)
}

// A message number, and how many of 2,000 random messages at least have a row that comes back.
struct RandomRow {
    name: &'static str,
    message: u16,
    least: u32,
}

const RANDOM: [RandomRow; 5] = [
    RandomRow {
        name: "GLONASS",
        message: 1020,
        least: 100,
    },
    RandomRow {
        name: "NavIC",
        message: 1041,
        least: 80,
    },
    RandomRow {
        name: "BeiDou",
        message: 1042,
        least: 300,
    },
    RandomRow {
        name: "QZSS",
        message: 1044,
        least: 300,
    },
    RandomRow {
        name: "Galileo F/NAV",
        message: 1045,
        least: 150,
    },
];

// How many rows of random messages come back; 0 where one does not.
fn random_rows(row: &RandomRow, alloc: Global) -> u32 {
    let mut state = 1;
    let mut good = 0;
    for _ in 0..2_000 {
        let payload = random_payload(&mut state, row.message);
        match comes_back_whole(row.message, &payload, alloc) {
            Some(true) => good = u32::saturating_add(good, 1),
            Some(false) => return 0,
            None => {}
        }
    }
    good
}

// Whether the message of a GLONASS row has 0 for the numbers of the last line.
fn is_sent_as_zero(kind: &Kind, row: &Row) -> Option<bool>
    requires kind { IsKind kind.now }
    requires fields { AreFields kind.now.layout.columns.now row.now.columns.items }
{
    let mut payload = [0; 64];
    let count = kind.table.bytes;
    if count > 64 {
        return None;
    }
    message_of_row(kind, row, &mut payload[..count]).ok()?;
    let again = row_of_message(kind, &payload, RefWeek::new(2295)?).ok()?;
    let columns = again.columns.as_slice();
    Some(columns.len() == 19 && [columns[15], columns[16], columns[17], columns[18]] == [0; 4])
}

// Whether a GLONASS record without its last line is read, the numbers of that line being not known,
// and is sent with 0 for them.
fn is_read_early(row: &MessageRow) -> Option<bool> {
    let kind = kind_of(row.message, row.satellite)?;
    let (lines, _) = lines_of(row.record);
    let all = &lines[..];
    let whole = read_record(&kind, &all[0], &all[1..6]).ok()?;
    let early = read_record(&kind, &all[0], &all[1..5]).ok()?;
    let numbers = whole.columns.as_slice();
    let columns = early.columns.as_slice();
    if columns.len() != 19 || numbers.len() != 19 {
        return None;
    }
    let left = [columns[15], columns[16], columns[17], columns[18]];
    Some(
        early.number == whole.number
            && columns[0] == numbers[0]
            && columns[14] == numbers[14]
            && left == [NOT_KNOWN; 4]
            && is_sent_as_zero(&kind, &early)?,
    )
}

#[test]
fn random_messages(rt: HostRuntime) {
    for row in &RANDOM {
        let good = random_rows(row, rt.alloc());
        assert!(rt; good >= row.least, "{}", row.name);
    }
}

#[test]
fn records_of_messages(rt: HostRuntime) {
    for row in &MESSAGES {
        assert!(rt; is_record(row, rt.alloc()) == Some(true), "{}", row.name);
    }
    assert!(rt; comes_back() == Some(true));
    assert!(rt; is_read_early(&MESSAGES[2]) == Some(true));
}
