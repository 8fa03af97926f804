//! What a file has of systems and messages that are skipped.

/// The systems and messages that are distinguished.
pub(crate) const SYSTEMS: [&str; COUNT] = [
    "GLONASS",
    "BeiDou",
    "QZSS",
    "NavIC",
    "SBAS",
    "GPS CNAV",
    "Galileo F/NAV",
];

/// How many they are.
pub(crate) const COUNT: usize = 7;

/// One of them, by its place.
pub(crate) type System = usize;

const CNAV: System = 5;

/// That of Galileo F/NAV.
pub(crate) const FNAV: System = 6;

/// Numbers from the first to the last, of which each is that of a system.
pub(crate) type Numbers = (u16, u16, System);

// The letters of satellites in RINEX.
static LETTERS: [Numbers; 5] = [
    (0x52, 0x52, 0),
    (0x43, 0x43, 1),
    (0x4a, 0x4a, 2),
    (0x49, 0x49, 3),
    (0x53, 0x53, 4),
];

/// Those of RTCM messages with ephemerides that are not converted: 63 was BeiDou's in a draft, and
/// 1043 is that of SBAS (RTCM 10403.3, table 3.5-1).
pub(crate) static RTCM: [Numbers; 2] = [(63, 63, 1), (1043, 1043, 4)];

/// Those of UBX-RXM-SFRBX: its gnssId, and its sigId in the low byte.
pub(crate) static UBX: [Numbers; 8] = [
    (0x600, 0x6ff, 0),
    (0x300, 0x3ff, 1),
    (0x500, 0x5ff, 2),
    (0x700, 0x7ff, 3),
    (0x100, 0x1ff, 4),
    (0x003, 0x004, CNAV),
    (0x006, 0x007, CNAV),
    (0x203, 0x203, FNAV),
];

/// Those of SBF blocks.
pub(crate) static SBF: [Numbers; 7] = [
    (4026, 4026, 0),
    (4047, 4047, 1),
    (4066, 4066, 2),
    (4093, 4093, 3),
    (4020, 4020, 4),
    (4018, 4019, CNAV),
    (4022, 4022, FNAV),
];

/// How many records or messages there are of each.
#[derive(Clone, Copy)]
pub(crate) struct Skips {
    counts: [u64; COUNT],
}

impl Skips {
    /// None.
    pub(crate) fn new() -> Skips {
        Skips { counts: [0; COUNT] }
    }

    /// Adds so many.
    pub(crate) fn add(&mut self, system: System, count: u64) {
        if let Some(known) = self.counts.get_mut(system) {
            *known = known.saturating_add(count);
        }
    }

    /// How many there are of one.
    pub(crate) fn of(&self, system: System) -> u64 {
        match self.counts.get(system) {
            Some(count) => *count,
            None => 0,
        }
    }

    /// How many there are.
    pub(crate) fn sum(&self) -> u64 {
        let mut sum = 0u64;
        for count in self.counts.as_slice() {
            sum = sum.saturating_add(*count);
        }
        sum
    }

    /// Adds those of another.
    pub(crate) fn join(&mut self, other: &Skips) {
        for system in 0..COUNT {
            self.add(system, other.of(system));
        }
    }
}

/// The system of a number.
pub(crate) fn system_in(numbers: &[Numbers], number: u16) -> Option<System> {
    for (first, last, system) in numbers {
        if *first <= number && number <= *last {
            return Some(*system);
        }
    }
    None
}

// The records of RINEX 4 that are read: their type, the letter of the satellite, and the message.
static READ: [(&[u8], u8, &[u8]); 11] = [
    (b"EPH", b'G', b"LNAV"),
    (b"EPH", b'E', b"INAV"),
    (b"EPH", b'R', b"FDMA"),
    (b"EPH", b'E', b"FNAV"),
    (b"EPH", b'C', b"D1"),
    (b"EPH", b'C', b"D2"),
    (b"EPH", b'J', b"LNAV"),
    (b"EPH", b'I', b"LNAV"),
    (b"EPH", b'S', b"SBAS"),
    (b"ION", b'G', b"LNAV"),
    (b"ION", b'E', b"IFNV"),
];

/// The system of a record of RINEX, by the letter of its satellite.
pub(crate) fn system_of_letter(letter: u8) -> Option<System> {
    system_in(&LETTERS, u16::from(letter))
}

/// That of a record of RINEX 4, by its title: `> EPH R05 FDMA`.
pub(crate) fn system_of_title(title: &[u8]) -> Option<System> {
    if title.get(2..5) != Some(b"EPH".as_slice()) {
        return None;
    }
    match (title.get(6), title.get(10..14)) {
        (Some(b'G'), Some([b'C', b'N', ..])) => Some(CNAV),
        (Some(b'E'), Some([b'F', ..])) => Some(FNAV),
        (Some(letter), _) => system_of_letter(*letter),
        _ => None,
    }
}

/// Whether a record of RINEX 4 is of a kind that is read, by its title.
pub(crate) fn is_read_title(title: &[u8]) -> bool {
    let (Some(class), Some([letter, _, _, _, message @ ..])) = (title.get(2..5), title.get(6..))
    else {
        return false;
    };
    for (known, system, name) in &READ {
        if class == *known && letter == system && message.starts_with(name) {
            return true;
        }
    }
    false
}
