use crate::parts::{A, B, C, Kind, Received, parts_of};
use crate::runs::{WEEK, WINDOW, gives_a_period_once, letter};
use nav_eph::{GalEph, GpsEph, IonContent, IonEph, NavItem, Part, RefWeek, SentSecond};
use nav_laws::PlainAssembly;
use periods::{Closed, Verdict};
use slot_assembly::add_periods;
use std::alloc::{AllocError, Global};
use std::test::Fail;

// The end of a period, and a letter for its verdict.
struct Period {
    end: u32,
    verdict: char,
}

// Parts that are heard, in this order, and their periods.
struct PeriodsRow {
    name: &'static str,
    heard: &'static [Received],
    periods: &'static [Period],
}

// The periods of some parts, near a week; none where there is no such week.
fn periods_of(alloc: Global, week: u32, parts: &[Part]) -> Result<Vec<Closed>, AllocError> {
    let mut periods = Vec::new(alloc);
    if let Some(reference) = RefWeek::new(week) {
        let mut assembly = PlainAssembly::new(alloc, reference, WINDOW);
        add_periods(&mut assembly, parts, &mut periods)?;
    }
    Ok(periods)
}

// Periods have these ends and verdicts.
fn are_periods(periods: &[Closed], want: &[Period]) -> bool {
    let mut same = periods.len() == want.len();
    for (period, want) in periods.iter().zip(want.iter()) {
        same = same && period.end == want.end && letter(&period.verdict) == want.verdict;
    }
    same
}

// What is heard makes the periods of the row.
fn makes(alloc: Global, row: &PeriodsRow) -> Result<bool, AllocError> {
    let parts = parts_of(alloc, row.heard)?;
    let periods = periods_of(alloc, WEEK, parts.as_slice())?;
    Ok(are_periods(periods.as_slice(), row.periods))
}

// Words of which the last is heard at 7, at 7,207 or at 14,407, and the parts of an ephemeris of
// GPS, as they are heard first and at three later times.
const WORD_1: Received = Received {
    stamp: 1,
    kind: Kind::Word { number: 1 },
};

const WORD_2: Received = Received {
    stamp: 3,
    kind: Kind::Word { number: 2 },
};

const WORD_3: Received = Received {
    stamp: 5,
    kind: Kind::Word { number: 3 },
};

const WORD_4: Received = Received {
    stamp: 7,
    kind: Kind::Word { number: 4 },
};

const LATE_WORD_1: Received = Received {
    stamp: 7_201,
    kind: Kind::Word { number: 1 },
};

const LATE_WORD_2: Received = Received {
    stamp: 7_203,
    kind: Kind::Word { number: 2 },
};

const LATE_WORD_3: Received = Received {
    stamp: 7_205,
    kind: Kind::Word { number: 3 },
};

const LATE_WORD_4: Received = Received {
    stamp: 7_207,
    kind: Kind::Word { number: 4 },
};

const A0: Received = Received { stamp: 0, kind: A };

const B0: Received = Received { stamp: 6, kind: B };

const C0: Received = Received { stamp: 12, kind: C };

const A1: Received = Received {
    stamp: 7_213,
    kind: A,
};

const B1: Received = Received {
    stamp: 7_219,
    kind: B,
};

const C1: Received = Received {
    stamp: 7_225,
    kind: C,
};

const A2: Received = Received {
    stamp: 14_414,
    kind: A,
};

const B2: Received = Received {
    stamp: 14_420,
    kind: B,
};

const C2: Received = Received {
    stamp: 14_426,
    kind: C,
};

const A3: Received = Received {
    stamp: 21_628,
    kind: A,
};

const B3: Received = Received {
    stamp: 21_634,
    kind: B,
};

const C3: Received = Received {
    stamp: 21_640,
    kind: C,
};

const REPEATED_WORD_1: Received = Received {
    stamp: 14_401,
    kind: Kind::Word { number: 1 },
};

const REPEATED_WORD_2: Received = Received {
    stamp: 14_403,
    kind: Kind::Word { number: 2 },
};

const REPEATED_WORD_3: Received = Received {
    stamp: 14_405,
    kind: Kind::Word { number: 3 },
};

const REPEATED_WORD_4: Received = Received {
    stamp: 14_407,
    kind: Kind::Word { number: 4 },
};

const FIRST: Received = Received {
    stamp: 9,
    kind: Kind::Health { hs_e1b: 0 },
};

static PERIODS: [PeriodsRow; 24] = [
    // Verdicts.
    PeriodsRow {
        name: "three parts",
        heard: &[
            Received { stamp: 0, kind: A },
            Received { stamp: 6, kind: B },
            Received { stamp: 12, kind: C },
        ],
        periods: &[Period {
            end: 12,
            verdict: 'w',
        }],
    },
    PeriodsRow {
        name: "three parts in another order",
        heard: &[
            Received { stamp: 12, kind: C },
            Received { stamp: 0, kind: A },
            Received { stamp: 6, kind: B },
            Received { stamp: 0, kind: A },
        ],
        periods: &[Period {
            end: 12,
            verdict: 'w',
        }],
    },
    PeriodsRow {
        name: "one part twice",
        heard: &[
            Received { stamp: 6, kind: B },
            Received { stamp: 6, kind: B },
        ],
        periods: &[Period {
            end: 6,
            verdict: 'p',
        }],
    },
    PeriodsRow {
        name: "two contents of one kind",
        heard: &[
            Received { stamp: 0, kind: A },
            Received { stamp: 6, kind: B },
            Received { stamp: 12, kind: C },
            Received {
                stamp: 36,
                kind: Kind::OrbitA { m0: 1 },
            },
        ],
        periods: &[Period {
            end: 36,
            verdict: 'c',
        }],
    },
    PeriodsRow {
        name: "parts as long apart as the window",
        heard: &[
            Received { stamp: 0, kind: A },
            Received {
                stamp: 7_200,
                kind: B,
            },
            Received {
                stamp: 14_400,
                kind: C,
            },
        ],
        periods: &[Period {
            end: 14_400,
            verdict: 'w',
        }],
    },
    PeriodsRow {
        name: "parts longer apart than the window",
        heard: &[
            Received { stamp: 0, kind: A },
            Received {
                stamp: 7_201,
                kind: B,
            },
        ],
        periods: &[
            Period {
                end: 0,
                verdict: 'p',
            },
            Period {
                end: 7_201,
                verdict: 'p',
            },
        ],
    },
    PeriodsRow {
        name: "a part between two others",
        heard: &[
            Received { stamp: 0, kind: A },
            Received {
                stamp: 8_000,
                kind: C,
            },
            Received {
                stamp: 4_000,
                kind: B,
            },
        ],
        periods: &[Period {
            end: 8_000,
            verdict: 'w',
        }],
    },
    PeriodsRow {
        name: "parts of two issues",
        heard: &[
            Received { stamp: 0, kind: A },
            Received {
                stamp: 6,
                kind: Kind::OrbitB { iode: 9 },
            },
            Received { stamp: 12, kind: B },
        ],
        periods: &[
            Period {
                end: 6,
                verdict: 'p',
            },
            Period {
                end: 12,
                verdict: 'p',
            },
        ],
    },
    PeriodsRow {
        name: "up to the last stamp",
        heard: &[
            Received {
                stamp: u32::MAX,
                kind: B,
            },
            Received {
                stamp: u32::MAX - 7_200,
                kind: A,
            },
            Received {
                stamp: u32::MAX - 1,
                kind: C,
            },
        ],
        periods: &[Period {
            end: u32::MAX,
            verdict: 'w',
        }],
    },
    // Health near the end.
    PeriodsRow {
        name: "health behind the end",
        heard: &[
            WORD_1,
            WORD_2,
            WORD_3,
            WORD_4,
            Received {
                stamp: 9,
                kind: Kind::Health { hs_e1b: 0 },
            },
        ],
        periods: &[Period {
            end: 7,
            verdict: 'w',
        }],
    },
    PeriodsRow {
        name: "health a window behind the end",
        heard: &[
            WORD_1,
            WORD_2,
            WORD_3,
            WORD_4,
            Received {
                stamp: 7_207,
                kind: Kind::Health { hs_e1b: 0 },
            },
        ],
        periods: &[Period {
            end: 7,
            verdict: 'w',
        }],
    },
    PeriodsRow {
        name: "health later than a window behind the end",
        heard: &[
            WORD_1,
            WORD_2,
            WORD_3,
            WORD_4,
            Received {
                stamp: 7_208,
                kind: Kind::Health { hs_e1b: 0 },
            },
        ],
        periods: &[Period {
            end: 7,
            verdict: 'n',
        }],
    },
    PeriodsRow {
        name: "a word that is missing",
        heard: &[
            WORD_1,
            WORD_2,
            WORD_4,
            Received {
                stamp: 9,
                kind: Kind::Health { hs_e1b: 0 },
            },
        ],
        periods: &[Period {
            end: 7,
            verdict: 'p',
        }],
    },
    PeriodsRow {
        name: "health a window before the end",
        heard: &[
            Received {
                stamp: 7,
                kind: Kind::Health { hs_e1b: 0 },
            },
            LATE_WORD_1,
            LATE_WORD_2,
            LATE_WORD_3,
            LATE_WORD_4,
        ],
        periods: &[Period {
            end: 7_207,
            verdict: 'w',
        }],
    },
    PeriodsRow {
        name: "health earlier than a window before the end",
        heard: &[
            Received {
                stamp: 6,
                kind: Kind::Health { hs_e1b: 0 },
            },
            LATE_WORD_1,
            LATE_WORD_2,
            LATE_WORD_3,
            LATE_WORD_4,
        ],
        periods: &[Period {
            end: 7_207,
            verdict: 'n',
        }],
    },
    // Issues heard again. The same is nothing new; another health of the satellite is; a partial
    // period between does not count.
    PeriodsRow {
        name: "an issue again",
        heard: &[A0, B0, C0, A1, B1, C1],
        periods: &[
            Period {
                end: 12,
                verdict: 'w',
            },
            Period {
                end: 7_225,
                verdict: 'a',
            },
        ],
    },
    PeriodsRow {
        name: "an issue again with another health",
        heard: &[
            A0,
            B0,
            C0,
            Received {
                stamp: 7_213,
                kind: Kind::ClockOfHealth { health: 1 },
            },
            B1,
            C1,
        ],
        periods: &[
            Period {
                end: 12,
                verdict: 'w',
            },
            Period {
                end: 7_225,
                verdict: 'w',
            },
        ],
    },
    PeriodsRow {
        name: "an issue again behind a part of it",
        heard: &[
            A0,
            B0,
            C0,
            Received {
                stamp: 7_213,
                kind: C,
            },
            A2,
            B2,
            C2,
        ],
        periods: &[
            Period {
                end: 12,
                verdict: 'w',
            },
            Period {
                end: 7_213,
                verdict: 'p',
            },
            Period {
                end: 14_426,
                verdict: 'a',
            },
        ],
    },
    // Three times, with a partial period before the last.
    PeriodsRow {
        name: "an issue three times, with a part of it before the last",
        heard: &[
            A0,
            B0,
            C0,
            A1,
            B1,
            C1,
            Received {
                stamp: 14_426,
                kind: C,
            },
            A3,
            B3,
            C3,
        ],
        periods: &[
            Period {
                end: 12,
                verdict: 'w',
            },
            Period {
                end: 7_225,
                verdict: 'a',
            },
            Period {
                end: 14_426,
                verdict: 'p',
            },
            Period {
                end: 21_640,
                verdict: 'a',
            },
        ],
    },
    // What was said before the last time is new again.
    PeriodsRow {
        name: "an issue again with the health of its first time",
        heard: &[
            A0,
            B0,
            C0,
            Received {
                stamp: 7_213,
                kind: Kind::ClockOfHealth { health: 1 },
            },
            B1,
            C1,
            A3,
            B3,
            C3,
        ],
        periods: &[
            Period {
                end: 12,
                verdict: 'w',
            },
            Period {
                end: 7_225,
                verdict: 'w',
            },
            Period {
                end: 21_640,
                verdict: 'w',
            },
        ],
    },
    // Words heard again.
    PeriodsRow {
        name: "words again",
        heard: &[
            WORD_1,
            WORD_2,
            WORD_3,
            WORD_4,
            FIRST,
            REPEATED_WORD_1,
            REPEATED_WORD_2,
            REPEATED_WORD_3,
            REPEATED_WORD_4,
            Received {
                stamp: 14_409,
                kind: Kind::Health { hs_e1b: 0 },
            },
        ],
        periods: &[
            Period {
                end: 7,
                verdict: 'w',
            },
            Period {
                end: 14_407,
                verdict: 'a',
            },
        ],
    },
    PeriodsRow {
        name: "words again with another health",
        heard: &[
            WORD_1,
            WORD_2,
            WORD_3,
            WORD_4,
            FIRST,
            REPEATED_WORD_1,
            REPEATED_WORD_2,
            REPEATED_WORD_3,
            REPEATED_WORD_4,
            Received {
                stamp: 14_409,
                kind: Kind::Health { hs_e1b: 1 },
            },
        ],
        periods: &[
            Period {
                end: 7,
                verdict: 'w',
            },
            Period {
                end: 14_407,
                verdict: 'w',
            },
        ],
    },
    PeriodsRow {
        name: "an ionosphere again",
        heard: &[
            Received {
                stamp: 18,
                kind: Kind::Ion { satellite: 5 },
            },
            Received {
                stamp: 7_219,
                kind: Kind::Ion { satellite: 5 },
            },
        ],
        periods: &[
            Period {
                end: 18,
                verdict: 'w',
            },
            Period {
                end: 7_219,
                verdict: 'w',
            },
        ],
    },
    // In the order of ends, and then of classes.
    PeriodsRow {
        name: "ends alike, in the order of classes",
        heard: &[
            Received {
                stamp: 18,
                kind: Kind::Ion { satellite: 5 },
            },
            Received {
                stamp: 18,
                kind: Kind::GalIon,
            },
            Received {
                stamp: 18,
                kind: Kind::Word { number: 1 },
            },
            Received { stamp: 18, kind: A },
        ],
        periods: &[
            Period {
                end: 18,
                verdict: 'p',
            },
            Period {
                end: 18,
                verdict: 'p',
            },
            Period {
                end: 18,
                verdict: 'w',
            },
            Period {
                end: 18,
                verdict: 'w',
            },
        ],
    },
];

// What is looked at of an item.
enum StatedRow {
    // The health of E1-B of an ephemeris of Galileo.
    Health {
        hs_e1b: u64,
    },
    // The accuracy, the week of toe and the transmission time of an ephemeris of GPS.
    Times {
        ura: u64,
        toe_week: u32,
        sent: SentSecond,
    },
    // The satellite and the moment of an ionosphere.
    Transmission {
        satellite: u8,
        moment: u64,
    },
}

// Parts that are heard, near a week, and what is said by the item of their first period, which is
// whole. Where an end is given there is one period, with that end.
struct ItemRow {
    name: &'static str,
    week: u32,
    heard: &'static [Received],
    end: Option<u32>,
    said: StatedRow,
}

static ITEMS: [ItemRow; 13] = [
    // Health: of two at one stamp the greater before the end, the lesser behind it; of two stamps
    // the last before it.
    ItemRow {
        name: "two health words of one stamp before the end",
        week: WEEK,
        heard: &[
            Received {
                stamp: 7,
                kind: Kind::Health { hs_e1b: 1 },
            },
            Received {
                stamp: 7,
                kind: Kind::Health { hs_e1b: 2 },
            },
            LATE_WORD_1,
            LATE_WORD_2,
            LATE_WORD_3,
            LATE_WORD_4,
        ],
        end: None,
        said: StatedRow::Health { hs_e1b: 2 },
    },
    ItemRow {
        name: "two health words of two stamps before the end",
        week: WEEK,
        heard: &[
            Received {
                stamp: 7,
                kind: Kind::Health { hs_e1b: 2 },
            },
            Received {
                stamp: 8,
                kind: Kind::Health { hs_e1b: 1 },
            },
            LATE_WORD_1,
            LATE_WORD_2,
            LATE_WORD_3,
            LATE_WORD_4,
            Received {
                stamp: 7_208,
                kind: Kind::Health { hs_e1b: 3 },
            },
        ],
        end: None,
        said: StatedRow::Health { hs_e1b: 1 },
    },
    ItemRow {
        name: "two health words of one stamp behind the end",
        week: WEEK,
        heard: &[
            WORD_1,
            WORD_2,
            WORD_3,
            WORD_4,
            Received {
                stamp: 9,
                kind: Kind::Health { hs_e1b: 2 },
            },
            Received {
                stamp: 9,
                kind: Kind::Health { hs_e1b: 1 },
            },
        ],
        end: None,
        said: StatedRow::Health { hs_e1b: 1 },
    },
    ItemRow {
        name: "two health words of two stamps behind the end",
        week: WEEK,
        heard: &[
            WORD_1,
            WORD_2,
            WORD_3,
            WORD_4,
            Received {
                stamp: 10,
                kind: Kind::Health { hs_e1b: 1 },
            },
            Received {
                stamp: 9,
                kind: Kind::Health { hs_e1b: 2 },
            },
        ],
        end: None,
        said: StatedRow::Health { hs_e1b: 2 },
    },
    // Clocks of GPS, before and behind the rest of the orbit.
    ItemRow {
        name: "two clocks, the earlier of the start of the week",
        week: WEEK,
        heard: &[
            Received {
                stamp: 3,
                kind: Kind::ClockSent {
                    ura: 0,
                    wn: 247,
                    second: 6,
                },
            },
            Received { stamp: 6, kind: B },
            Received { stamp: 12, kind: C },
            Received {
                stamp: 0,
                kind: Kind::ClockSent {
                    ura: 2,
                    wn: 247,
                    second: 0,
                },
            },
        ],
        end: None,
        said: StatedRow::Times {
            ura: 0,
            toe_week: WEEK,
            sent: SentSecond::At(0),
        },
    },
    ItemRow {
        name: "two clocks, of two accuracies",
        week: WEEK,
        heard: &[
            Received {
                stamp: 3,
                kind: Kind::ClockSent {
                    ura: 1,
                    wn: 247,
                    second: 0,
                },
            },
            Received { stamp: 6, kind: B },
            Received { stamp: 12, kind: C },
            Received {
                stamp: 3,
                kind: Kind::ClockSent {
                    ura: 2,
                    wn: 247,
                    second: 6,
                },
            },
        ],
        end: None,
        said: StatedRow::Times {
            ura: 2,
            toe_week: WEEK,
            sent: SentSecond::At(0),
        },
    },
    ItemRow {
        name: "two clocks of one stamp",
        week: WEEK,
        heard: &[
            Received {
                stamp: 3,
                kind: Kind::ClockSent {
                    ura: 2,
                    wn: 247,
                    second: 6,
                },
            },
            Received { stamp: 6, kind: B },
            Received { stamp: 12, kind: C },
            Received {
                stamp: 0,
                kind: Kind::ClockOfToe { ura: 1 },
            },
        ],
        end: None,
        said: StatedRow::Times {
            ura: 2,
            toe_week: WEEK,
            sent: SentSecond::At(6),
        },
    },
    ItemRow {
        name: "a clock of a toe alone",
        week: WEEK,
        heard: &[
            Received {
                stamp: 3,
                kind: Kind::ClockOfToe { ura: 0 },
            },
            Received { stamp: 6, kind: B },
            Received { stamp: 12, kind: C },
            Received {
                stamp: 0,
                kind: Kind::ClockOfToe { ura: 1 },
            },
        ],
        end: None,
        said: StatedRow::Times {
            ura: 0,
            toe_week: WEEK,
            sent: SentSecond::Unknown,
        },
    },
    // Sent 30 s before a week begins, with a toe at its start.
    ItemRow {
        name: "a clock of the week before",
        week: 2_294,
        heard: &[
            Received {
                stamp: 0,
                kind: Kind::ClockSent {
                    ura: 0,
                    wn: 246,
                    second: 604_770,
                },
            },
            Received { stamp: 6, kind: B },
            Received { stamp: 12, kind: C },
            Received {
                stamp: 0,
                kind: Kind::ClockSent {
                    ura: 0,
                    wn: 246,
                    second: 604_770,
                },
            },
        ],
        end: None,
        said: StatedRow::Times {
            ura: 0,
            toe_week: 2_295,
            sent: SentSecond::At(-30),
        },
    },
    // Ionospheres.
    ItemRow {
        name: "an ionosphere",
        week: WEEK,
        heard: &[Received {
            stamp: 18,
            kind: Kind::Ion { satellite: 5 },
        }],
        end: Some(18),
        said: StatedRow::Transmission {
            satellite: 5,
            moment: 1_388_016_018,
        },
    },
    ItemRow {
        name: "an ionosphere of two satellites",
        week: WEEK,
        heard: &[
            Received {
                stamp: 18,
                kind: Kind::Ion { satellite: 7 },
            },
            Received {
                stamp: 18,
                kind: Kind::Ion { satellite: 5 },
            },
        ],
        end: Some(18),
        said: StatedRow::Transmission {
            satellite: 5,
            moment: 1_388_016_018,
        },
    },
    ItemRow {
        name: "an ionosphere of two stamps",
        week: WEEK,
        heard: &[
            Received {
                stamp: 18,
                kind: Kind::Ion { satellite: 5 },
            },
            Received {
                stamp: 12,
                kind: Kind::Ion { satellite: 7 },
            },
        ],
        end: Some(18),
        said: StatedRow::Transmission {
            satellite: 7,
            moment: 1_388_016_018,
        },
    },
    ItemRow {
        name: "an ionosphere of Galileo",
        week: WEEK,
        heard: &[Received {
            stamp: 9,
            kind: Kind::GalIon,
        }],
        end: Some(9),
        said: StatedRow::Transmission {
            satellite: 11,
            moment: 1_388_016_008,
        },
    },
];

// The item says that.
fn is_stated(item: &NavItem, said: &StatedRow) -> bool {
    match (item, said) {
        (NavItem::Gal(eph), StatedRow::Health { hs_e1b }) => eph.health.hs_e1b.value() == *hs_e1b,
        (
            NavItem::Gps(eph),
            StatedRow::Times {
                ura,
                toe_week,
                sent,
            },
        ) => {
            eph.side.ura.value() == *ura && eph.toe_week.value() == *toe_week && eph.sent == *sent
        }
        (NavItem::Ion(ion), StatedRow::Transmission { satellite, moment }) => {
            ion.sat.number() == *satellite && ion.moment.value() == *moment
        }
        _ => false,
    }
}

// What is heard makes a period with the item of the row.
fn says(alloc: Global, row: &ItemRow) -> Result<bool, AllocError> {
    let _inside: Option<(GpsEph, GalEph, IonEph, IonContent)> = None;
    let parts = parts_of(alloc, row.heard)?;
    let periods = periods_of(alloc, row.week, parts.as_slice())?;
    let Some(first) = periods.first() else {
        return Ok(false);
    };
    let ends = match row.end {
        Some(end) => periods.len() == 1 && first.end == end,
        None => true,
    };
    Ok(match &first.verdict {
        Verdict::Whole(item) => ends && is_stated(item, &row.said),
        _ => false,
    })
}

#[test]
fn rows(rt: HostRuntime) -> Result<(), Fail> {
    for row in &PERIODS {
        assert!(rt; makes(rt.alloc(), row)?, "{}", row.name);
    }
    for row in &ITEMS {
        assert!(rt; says(rt.alloc(), row)?, "{}", row.name);
    }
    Ok(())
}

#[test]
fn next_closed_period(rt: HostRuntime) -> Result<(), Fail> {
    let reference = RefWeek::new(WEEK).ok_or("a week")?;
    let mut assembly = PlainAssembly::new(rt.alloc(), reference, WINDOW);
    assert!(rt; gives_a_period_once(rt.alloc(), &mut assembly)?);
    Ok(())
}
