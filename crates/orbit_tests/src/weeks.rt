use nav_bits::U;
use nav_eph::{
    Civil, Moment, RefWeek, Second, Week, WeekFault, civil, gal_week, gps_week, is_near_galileo,
    is_near_gps, moment_of, nearest_moment,
};

// A reference week, the bits of a week in a message, and the week.
struct WeekRow {
    reference: u32,
    bits: u64,
    week: u32,
}

static GPS_WEEKS: [WeekRow; 9] = [
    WeekRow {
        reference: 2295,
        bits: 247,
        week: 2295,
    },
    WeekRow {
        reference: 2295,
        bits: 758,
        week: 2806,
    },
    WeekRow {
        reference: 2295,
        bits: 759,
        week: 1783,
    },
    WeekRow {
        reference: 1024,
        bits: 934,
        week: 934,
    },
    WeekRow {
        reference: 1024,
        bits: 46,
        week: 1070,
    },
    WeekRow {
        reference: 2300,
        bits: 842,
        week: 1866,
    },
    WeekRow {
        reference: 5928,
        bits: 829,
        week: 5949,
    },
    WeekRow {
        reference: 8191,
        bits: 549,
        week: 7717,
    },
    WeekRow {
        reference: 8191,
        bits: 348,
        week: 8540,
    },
];

fn gps_week_of(row: &WeekRow) -> Option<u32> {
    Some(gps_week(RefWeek::new(row.reference)?, U::new(row.bits)?).value())
}

static GALILEO_WEEKS: [WeekRow; 9] = [
    WeekRow {
        reference: 2295,
        bits: 1271,
        week: 2295,
    },
    WeekRow {
        reference: 2295,
        bits: 0,
        week: 1024,
    },
    WeekRow {
        reference: 2295,
        bits: 4095,
        week: 5119,
    },
    WeekRow {
        reference: 8191,
        bits: 1023,
        week: 6143,
    },
    WeekRow {
        reference: 8191,
        bits: 1022,
        week: 10238,
    },
    WeekRow {
        reference: 1024,
        bits: 208,
        week: 1232,
    },
    WeekRow {
        reference: 2300,
        bits: 829,
        week: 1853,
    },
    WeekRow {
        reference: 5928,
        bits: 3546,
        week: 4570,
    },
    WeekRow {
        reference: 8191,
        bits: 4002,
        week: 9122,
    },
];

fn galileo_week_of(row: &WeekRow) -> Option<u32> {
    Some(gal_week(RefWeek::new(row.reference)?, U::new(row.bits)?).value())
}

// A reference week, a week, and whether the bits of GPS and of Galileo tell it apart there.
struct NearRow {
    reference: u32,
    week: u32,
    gps: bool,
    galileo: bool,
}

static NEAR_WEEKS: [NearRow; 7] = [
    NearRow {
        reference: 2295,
        week: 1783,
        gps: true,
        galileo: true,
    },
    NearRow {
        reference: 2295,
        week: 1782,
        gps: false,
        galileo: true,
    },
    NearRow {
        reference: 2295,
        week: 2806,
        gps: true,
        galileo: true,
    },
    NearRow {
        reference: 2295,
        week: 2807,
        gps: false,
        galileo: true,
    },
    NearRow {
        reference: 2295,
        week: 1023,
        gps: false,
        galileo: false,
    },
    NearRow {
        reference: 2295,
        week: 5119,
        gps: false,
        galileo: true,
    },
    NearRow {
        reference: 2295,
        week: 5120,
        gps: false,
        galileo: false,
    },
];

fn is_near(row: &NearRow) -> Option<[bool; 2]> {
    let reference = RefWeek::new(row.reference)?;
    let week = Week::new(row.week)?;
    Some([
        is_near_gps(reference, week),
        is_near_galileo(reference, week),
    ])
}

// A moment, a second of a week, and the nearest moment with that second.
struct NearestRow {
    near: u64,
    second: u32,
    moment: u64,
}

static NEAREST: [NearestRow; 8] = [
    NearestRow {
        near: 1_388_016_000,
        second: 302_400,
        moment: 1_388_318_400,
    },
    NearestRow {
        near: 1_388_015_999,
        second: 302_400,
        moment: 1_387_713_600,
    },
    NearestRow {
        near: 15_522_530,
        second: 449_342,
        moment: 15_569_342,
    },
    NearestRow {
        near: 8_451_963_684,
        second: 240_453,
        moment: 8_451_715_653,
    },
    NearestRow {
        near: 6_742_384_050,
        second: 0,
        moment: 6_742_310_400,
    },
    NearestRow {
        near: 7_703_721_481,
        second: 604_799,
        moment: 7_703_942_399,
    },
    NearestRow {
        near: 3_024_013_360,
        second: 0,
        moment: 3_024_000_000,
    },
    NearestRow {
        near: 4_533_125_507,
        second: 604_799,
        moment: 4_532_975_999,
    },
];

fn nearest(row: &NearestRow) -> Option<u64> {
    let near = Moment::new(row.near)?;
    let _week = Week::new(near.week())?;
    Some(nearest_moment(near, Second::new(row.second)?).value())
}

// A date, and the moment that it names, or why it names none.
struct DateRow {
    date: Civil,
    moment: Result<u64, WeekFault>,
}

static DATES: [DateRow; 15] = [
    DateRow {
        date: Civil {
            year: 1980,
            month: 1,
            day: 6,
            hour: 0,
            minute: 0,
            second: 0,
        },
        moment: Ok(0),
    },
    DateRow {
        date: Civil {
            year: 1980,
            month: 1,
            day: 12,
            hour: 23,
            minute: 59,
            second: 59,
        },
        moment: Ok(604_799),
    },
    DateRow {
        date: Civil {
            year: 2000,
            month: 4,
            day: 10,
            hour: 15,
            minute: 52,
            second: 0,
        },
        moment: Ok(639_417_120),
    },
    DateRow {
        date: Civil {
            year: 2023,
            month: 12,
            day: 31,
            hour: 0,
            minute: 0,
            second: 0,
        },
        moment: Ok(1_388_016_000),
    },
    DateRow {
        date: Civil {
            year: 2066,
            month: 7,
            day: 4,
            hour: 8,
            minute: 44,
            second: 19,
        },
        moment: Ok(2_729_493_859),
    },
    DateRow {
        date: Civil {
            year: 2154,
            month: 4,
            day: 8,
            hour: 3,
            minute: 19,
            second: 44,
        },
        moment: Ok(5_498_939_984),
    },
    DateRow {
        date: Civil {
            year: 2224,
            month: 3,
            day: 15,
            hour: 2,
            minute: 19,
            second: 30,
        },
        moment: Ok(7_705_851_570),
    },
    DateRow {
        date: Civil {
            year: 2294,
            month: 1,
            day: 6,
            hour: 23,
            minute: 59,
            second: 59,
        },
        moment: Ok(9_909_043_199),
    },
    DateRow {
        date: Civil {
            year: 2023,
            month: 2,
            day: 29,
            hour: 0,
            minute: 0,
            second: 0,
        },
        moment: Err(WeekFault::NoSuchDate),
    },
    DateRow {
        date: Civil {
            year: 2023,
            month: 12,
            day: 31,
            hour: 23,
            minute: 59,
            second: 60,
        },
        moment: Err(WeekFault::NoSuchDate),
    },
    DateRow {
        date: Civil {
            year: 0,
            month: 2,
            day: 30,
            hour: 0,
            minute: 0,
            second: 0,
        },
        moment: Err(WeekFault::NoSuchDate),
    },
    DateRow {
        date: Civil {
            year: 10_000,
            month: 1,
            day: 1,
            hour: 0,
            minute: 0,
            second: 0,
        },
        moment: Err(WeekFault::NoSuchDate),
    },
    DateRow {
        date: Civil {
            year: 0,
            month: 2,
            day: 29,
            hour: 0,
            minute: 0,
            second: 0,
        },
        moment: Err(WeekFault::BeforeEpoch),
    },
    DateRow {
        date: Civil {
            year: 1980,
            month: 1,
            day: 5,
            hour: 23,
            minute: 59,
            second: 59,
        },
        moment: Err(WeekFault::BeforeEpoch),
    },
    DateRow {
        date: Civil {
            year: 2294,
            month: 1,
            day: 7,
            hour: 0,
            minute: 0,
            second: 0,
        },
        moment: Err(WeekFault::TooFar),
    },
];

// Whether the date names the moment, and the moment has the date.
fn is_date(row: &DateRow) -> bool {
    match (moment_of(&row.date), row.moment) {
        (Ok(moment), Ok(seconds)) => moment.value() == seconds && civil(moment) == row.date,
        (Err(fault), Err(wanted)) => fault == wanted,
        _ => false,
    }
}

fn numbers() -> Option<bool> {
    let week = Week::new(2295)?;
    let last = Moment::new(9_909_043_199)?;
    let first = Moment::new(0)?;
    let of_last = last.week() == 16383 && last.second().value() == 604_799;
    Some(week.value() == 2295 && of_last && last > first)
}

#[test]
fn weeks_and_moments(rt: HostRuntime) {
    for row in &GPS_WEEKS {
        assert_eq!(rt;
            gps_week_of(row),
            Some(row.week),
            "{} {}",
            row.reference,
            row.bits
        );
    }
    for row in &GALILEO_WEEKS {
        assert_eq!(rt;
            galileo_week_of(row),
            Some(row.week),
            "{} {}",
            row.reference,
            row.bits
        );
    }
    for row in &NEAR_WEEKS {
        assert_eq!(rt; is_near(row), Some([row.gps, row.galileo]), "{}", row.week);
    }
    for row in &NEAREST {
        assert_eq!(rt;
            nearest(row),
            Some(row.moment),
            "{} {}",
            row.near,
            row.second
        );
    }
    for row in &DATES {
        assert!(rt;
            is_date(row),
            "{}-{}-{}",
            row.date.year,
            row.date.month,
            row.date.day
        );
    }
    assert!(rt; numbers() == Some(true));
}
