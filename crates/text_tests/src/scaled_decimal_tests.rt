//! Worked rows and outside vectors, computed in exact arithmetic by another program.

use scaled_decimal::{DecimalFault, Scale, print, read};

// The numbers of a scale, which is factor * 2^two * 10^ten, times pi where that is said.
#[derive(Clone, Copy)]
struct ScaleNumbers {
    pi: bool,
    factor: u32,
    two: i32,
    ten: i32,
}

// The least and the greatest number of a range.
#[derive(Clone, Copy)]
struct Range {
    low: i64,
    high: i64,
}

const ANY: Range = Range {
    low: -4_294_967_295,
    high: 4_294_967_295,
};

const BYTE: Range = Range { low: 0, high: 255 };

const SIGNED: Range = Range {
    low: -2_147_483_648,
    high: 2_147_483_647,
};

const ONE: ScaleNumbers = ScaleNumbers {
    pi: false,
    factor: 1,
    two: 0,
    ten: 0,
};

const ANGLE: ScaleNumbers = ScaleNumbers {
    pi: true,
    factor: 1,
    two: -31,
    ten: 0,
};

// A number, its scale, and the text as which it is printed.
struct TextRow {
    number: i64,
    scale: ScaleNumbers,
    text: &'static str,
}

static TEXTS: [TextRow; 18] = [
    TextRow {
        number: 1,
        scale: ANGLE,
        text: " 1.462918079267D-09",
    },
    TextRow {
        number: -2_147_483_648,
        scale: ANGLE,
        text: "-3.141592653590D+00",
    },
    TextRow {
        number: 4_294_967_295,
        scale: ScaleNumbers {
            pi: false,
            factor: 1,
            two: -19,
            ten: 0,
        },
        text: " 8.191999998093D+03",
    },
    TextRow {
        number: 4_294_967_295,
        scale: ScaleNumbers {
            pi: false,
            factor: 1,
            two: -33,
            ten: 0,
        },
        text: " 4.999999998836D-01",
    },
    TextRow {
        number: -2_097_152,
        scale: ScaleNumbers {
            pi: false,
            factor: 1,
            two: -31,
            ten: 0,
        },
        text: "-9.765625000000D-04",
    },
    TextRow {
        number: 11,
        scale: ScaleNumbers {
            pi: false,
            factor: 1,
            two: -30,
            ten: 0,
        },
        text: " 1.024454832077D-08",
    },
    TextRow {
        number: 44,
        scale: ScaleNumbers {
            pi: false,
            factor: 1,
            two: 11,
            ten: 0,
        },
        text: " 9.011200000000D+04",
    },
    TextRow {
        number: 0,
        scale: ANGLE,
        text: " 0.000000000000D+00",
    },
    TextRow {
        number: 2_701_656_576,
        scale: ScaleNumbers {
            pi: false,
            factor: 1,
            two: -19,
            ten: 0,
        },
        text: " 5.153000976562D+03",
    },
    TextRow {
        number: 2_701_657_600,
        scale: ScaleNumbers {
            pi: false,
            factor: 1,
            two: -19,
            ten: 0,
        },
        text: " 5.153002929688D+03",
    },
    TextRow {
        number: -4_294_967_295,
        scale: ScaleNumbers {
            pi: false,
            factor: 60,
            two: -29,
            ten: -2,
        },
        text: "-4.799999998882D+00",
    },
    TextRow {
        number: -4_294_967_295,
        scale: ScaleNumbers {
            pi: true,
            factor: 1,
            two: 11,
            ten: -2,
        },
        text: "-2.763374121243D+11",
    },
    TextRow {
        number: 4_294_967_295,
        scale: ScaleNumbers {
            pi: true,
            factor: 16,
            two: 16,
            ten: 0,
        },
        text: " 1.414847550076D+16",
    },
    TextRow {
        number: 178,
        scale: ScaleNumbers {
            pi: false,
            factor: 1,
            two: -59,
            ten: -2,
        },
        text: " 3.087807787239D-18",
    },
    TextRow {
        number: 1,
        scale: ScaleNumbers {
            pi: true,
            factor: 1,
            two: -55,
            ten: -2,
        },
        text: " 8.719671245022D-19",
    },
    TextRow {
        number: -1,
        scale: ScaleNumbers {
            pi: false,
            factor: 14,
            two: -59,
            ten: 0,
        },
        text: "-2.428612866368D-17",
    },
    TextRow {
        number: 64,
        scale: ScaleNumbers {
            pi: false,
            factor: 16,
            two: -30,
            ten: -2,
        },
        text: " 9.536743164062D-09",
    },
    TextRow {
        number: 4_179_216_566,
        scale: ScaleNumbers {
            pi: false,
            factor: 60,
            two: -5,
            ten: 0,
        },
        text: " 7.836031061250D+09",
    },
];

// Whether the number is printed as the text, and read back.
fn is_printed(row: &TextRow) -> bool {
    let ScaleNumbers {
        pi,
        factor,
        two,
        ten,
    } = row.scale;
    let Some(scale) = Scale::new(pi, factor, two, ten) else {
        return false;
    };
    let text = row.text.as_bytes();
    row.number.unsigned_abs() <= 4_294_967_295
        && text.len() <= 19
        && print(row.number, &scale).as_slice() == text
        && read(text, &scale, ANY.low, ANY.high) == Ok(row.number)
}

// A text, its scale, a range, and the number or the fault.
struct ReadingRow {
    text: &'static str,
    scale: ScaleNumbers,
    range: Range,
    answer: Result<i64, DecimalFault>,
}

static READINGS: [ReadingRow; 37] = [
    ReadingRow {
        text: " 2.500000000000e+00",
        scale: ONE,
        range: BYTE,
        answer: Ok(2),
    },
    ReadingRow {
        text: "-3.500000000000E+00",
        scale: ONE,
        range: ANY,
        answer: Ok(-4),
    },
    ReadingRow {
        text: " 4.294967295500d+09",
        scale: ONE,
        range: ANY,
        answer: Err(DecimalFault::OutOfRange),
    },
    ReadingRow {
        text: "-4.294967295499D+09",
        scale: ONE,
        range: ANY,
        answer: Ok(-4_294_967_295),
    },
    ReadingRow {
        text: "+1.000000000000D+00",
        scale: ONE,
        range: BYTE,
        answer: Ok(1),
    },
    ReadingRow {
        text: " 1.00000000000:D+00",
        scale: ONE,
        range: BYTE,
        answer: Err(DecimalFault::NotANumber),
    },
    ReadingRow {
        text: " 1.000000000000D 00",
        scale: ONE,
        range: BYTE,
        answer: Err(DecimalFault::NotANumber),
    },
    ReadingRow {
        text: "1.462918079267e-09",
        scale: ANGLE,
        range: SIGNED,
        answer: Ok(1),
    },
    ReadingRow {
        text: "1.462918079268D-09",
        scale: ANGLE,
        range: SIGNED,
        answer: Ok(1),
    },
    ReadingRow {
        text: "-0.5",
        scale: ANGLE,
        range: SIGNED,
        answer: Ok(-341_782_638),
    },
    ReadingRow {
        text: "1.00000000000000000",
        scale: ANGLE,
        range: SIGNED,
        answer: Ok(683_565_276),
    },
    ReadingRow {
        text: " 12 ",
        scale: ANGLE,
        range: SIGNED,
        answer: Err(DecimalFault::OutOfRange),
    },
    ReadingRow {
        text: ".5D+01",
        scale: ONE,
        range: BYTE,
        answer: Ok(5),
    },
    ReadingRow {
        text: "5",
        scale: ONE,
        range: BYTE,
        answer: Ok(5),
    },
    ReadingRow {
        text: "+5.0",
        scale: ONE,
        range: BYTE,
        answer: Ok(5),
    },
    ReadingRow {
        text: " 12 ",
        scale: ONE,
        range: BYTE,
        answer: Ok(12),
    },
    ReadingRow {
        text: "-0.0",
        scale: ONE,
        range: BYTE,
        answer: Ok(0),
    },
    ReadingRow {
        text: "1.5",
        scale: ONE,
        range: BYTE,
        answer: Ok(2),
    },
    ReadingRow {
        text: "2.5",
        scale: ONE,
        range: BYTE,
        answer: Ok(2),
    },
    ReadingRow {
        text: "1E03",
        scale: ONE,
        range: ANY,
        answer: Ok(1000),
    },
    ReadingRow {
        text: "1d3",
        scale: ONE,
        range: BYTE,
        answer: Err(DecimalFault::OutOfRange),
    },
    ReadingRow {
        text: "256",
        scale: ONE,
        range: BYTE,
        answer: Err(DecimalFault::OutOfRange),
    },
    ReadingRow {
        text: "-1",
        scale: ONE,
        range: BYTE,
        answer: Err(DecimalFault::OutOfRange),
    },
    ReadingRow {
        text: "4294967295.5",
        scale: ONE,
        range: ANY,
        answer: Err(DecimalFault::OutOfRange),
    },
    ReadingRow {
        text: "1D+999",
        scale: ONE,
        range: ANY,
        answer: Err(DecimalFault::OutOfRange),
    },
    ReadingRow {
        text: "1D-999",
        scale: ONE,
        range: ANY,
        answer: Ok(0),
    },
    ReadingRow {
        text: "0D+999",
        scale: ONE,
        range: ANY,
        answer: Ok(0),
    },
    ReadingRow {
        text: "999999999999999999",
        scale: ONE,
        range: ANY,
        answer: Err(DecimalFault::OutOfRange),
    },
    ReadingRow {
        text: "1111111111111111111",
        scale: ONE,
        range: ANY,
        answer: Err(DecimalFault::NotANumber),
    },
    ReadingRow {
        text: "1.0D 05",
        scale: ONE,
        range: BYTE,
        answer: Err(DecimalFault::NotANumber),
    },
    ReadingRow {
        text: "1 2",
        scale: ONE,
        range: BYTE,
        answer: Err(DecimalFault::NotANumber),
    },
    ReadingRow {
        text: "1..2",
        scale: ONE,
        range: BYTE,
        answer: Err(DecimalFault::NotANumber),
    },
    ReadingRow {
        text: "--1",
        scale: ONE,
        range: BYTE,
        answer: Err(DecimalFault::NotANumber),
    },
    ReadingRow {
        text: "1e+0003",
        scale: ONE,
        range: BYTE,
        answer: Err(DecimalFault::NotANumber),
    },
    ReadingRow {
        text: ".",
        scale: ONE,
        range: BYTE,
        answer: Err(DecimalFault::NotANumber),
    },
    ReadingRow {
        text: "   ",
        scale: ONE,
        range: BYTE,
        answer: Err(DecimalFault::Blank),
    },
    ReadingRow {
        text: "",
        scale: ONE,
        range: BYTE,
        answer: Err(DecimalFault::Blank),
    },
];

// What the text is read as, in a range that may be asked for.
fn answer(row: &ReadingRow) -> Option<Result<i64, DecimalFault>> {
    let ScaleNumbers {
        pi,
        factor,
        two,
        ten,
    } = row.scale;
    let scale = Scale::new(pi, factor, two, ten)?;
    let Range { low, high } = row.range;
    let text = row.text.as_bytes();
    if text.len() > 19 || low < -4_294_967_295 || high > 4_294_967_295 {
        return None;
    }
    Some(read(text, &scale, low, high))
}

// The numbers of a scale, and whether there is such a scale.
struct ScaleRow {
    name: &'static str,
    numbers: ScaleNumbers,
    is_scale: bool,
}

static SCALES: [ScaleRow; 13] = [
    ScaleRow {
        name: "factor 0",
        numbers: ScaleNumbers {
            pi: false,
            factor: 0,
            two: 0,
            ten: 0,
        },
        is_scale: false,
    },
    ScaleRow {
        name: "factor 61 with pi",
        numbers: ScaleNumbers {
            pi: true,
            factor: 61,
            two: 0,
            ten: 0,
        },
        is_scale: false,
    },
    ScaleRow {
        name: "factor 1,001",
        numbers: ScaleNumbers {
            pi: false,
            factor: 1001,
            two: 0,
            ten: 0,
        },
        is_scale: false,
    },
    ScaleRow {
        name: "2 to the -67",
        numbers: ScaleNumbers {
            pi: false,
            factor: 1,
            two: -67,
            ten: 0,
        },
        is_scale: false,
    },
    ScaleRow {
        name: "2 to the -60 with pi",
        numbers: ScaleNumbers {
            pi: true,
            factor: 1,
            two: -60,
            ten: 0,
        },
        is_scale: false,
    },
    ScaleRow {
        name: "2 to the 17",
        numbers: ScaleNumbers {
            pi: false,
            factor: 1,
            two: 17,
            ten: 0,
        },
        is_scale: false,
    },
    ScaleRow {
        name: "10 to the -11",
        numbers: ScaleNumbers {
            pi: false,
            factor: 1,
            two: 0,
            ten: -11,
        },
        is_scale: false,
    },
    ScaleRow {
        name: "10 to the -3 and 2 to the -1",
        numbers: ScaleNumbers {
            pi: false,
            factor: 1,
            two: -1,
            ten: -3,
        },
        is_scale: false,
    },
    ScaleRow {
        name: "10 to the 1",
        numbers: ScaleNumbers {
            pi: false,
            factor: 1,
            two: 0,
            ten: 1,
        },
        is_scale: false,
    },
    ScaleRow {
        name: "the least scale with pi",
        numbers: ScaleNumbers {
            pi: true,
            factor: 1,
            two: -59,
            ten: -2,
        },
        is_scale: true,
    },
    ScaleRow {
        name: "the greatest scale",
        numbers: ScaleNumbers {
            pi: true,
            factor: 60,
            two: 16,
            ten: 0,
        },
        is_scale: true,
    },
    ScaleRow {
        name: "the least power of two",
        numbers: ScaleNumbers {
            pi: false,
            factor: 1,
            two: -66,
            ten: 0,
        },
        is_scale: true,
    },
    ScaleRow {
        name: "the least power of ten",
        numbers: ScaleNumbers {
            pi: false,
            factor: 1000,
            two: 0,
            ten: -10,
        },
        is_scale: true,
    },
];

// Whether a scale is made of the numbers, and has them.
fn is_scale(row: &ScaleRow) -> bool {
    let ScaleNumbers {
        pi,
        factor,
        two,
        ten,
    } = row.numbers;
    let scale = Scale {
        pi,
        factor,
        two,
        ten,
    };
    Scale::new(pi, factor, two, ten) == row.is_scale.then_some(scale)
}

#[test]
fn numbers_and_scales(rt: HostRuntime) {
    for row in &TEXTS {
        assert!(rt; is_printed(row), "{}", row.text);
    }
    for row in &READINGS {
        assert_eq!(rt;
            answer(row),
            Some(row.answer),
            "{} {}",
            row.text,
            row.scale.two
        );
    }
    for row in &SCALES {
        assert!(rt; is_scale(row), "{}", row.name);
    }
}
