//! The check value, an empty frame of RTCM, and values from outside.

use nav_bits::{
    Bits, Mover, bits_of_bytes_have_their_crc, crc_bits, crc_bytes, crc_of_joined_bytes,
    every_polynomial_has_a_crc, one_crc, shifted, the_register_holds_the_crc, with_byte,
};

// Bytes and their CRC.
struct BytesRow {
    name: &'static str,
    bytes: &'static [u8],
    crc: u64,
}

static BYTES: [BytesRow; 8] = [
    BytesRow {
        name: "the check value",
        bytes: b"123456789",
        crc: 0xcde703,
    },
    BytesRow {
        name: "a header with no payload",
        bytes: b"\xd3\x00\x00",
        crc: 0x47ea4b,
    },
    BytesRow {
        name: "no byte",
        bytes: b"",
        crc: 0x000000,
    },
    BytesRow {
        name: "one byte",
        bytes: b"\x65",
        crc: 0x00d821,
    },
    BytesRow {
        name: "two bytes",
        bytes: b"\xbf\xf9",
        crc: 0x5b5e43,
    },
    BytesRow {
        name: "three bytes",
        bytes: b"\x71\x25\xf4",
        crc: 0x912862,
    },
    BytesRow {
        name: "many bytes",
        bytes: b"\xdf\xfc\x12\x3b\x01\x8d\xb0\xa5\xd4\xd8\x2b\x4b\x40\xd7\xb6\x8d\x80\xf9\xd4\x85\
                 \x40\xcf\x37\x12\x67\x98\xbe\x77\xe1\x76\xb0\x3d\xec\x60\xdc\x87\x70\x93\x73\xb2\
                 \x19\xbd\xad\x24\xde\x0a\x01\xbd\xb0\x5c\x30\x88\xbd\xe7\x89\xf2\x2a\xbe\x74\x7e\
                 \x3c\xcb\x96\xe5",
        crc: 0xc983ab,
    },
    BytesRow {
        name: "more bytes",
        bytes: b"\xb7\x08\x87\xdc\xbc\x73\x95\x5a\x2d\x37\x9b\x63\xed\x5e\x38\xc2\x47\x82\x39\xa6\
                 \xf6\x0f\xe8\xb1\xf3\xb0\x26\x35\xff\xef\x15\x3b\x94\xd6\xaf\x50\x99\x39\xb0\x4c\
                 \x27\x73\x82\xbb\x89\xc7\x55\xd4\xe2\xdd\xca\x3d\x06\xa2\x16\x71\x9a\xd2\x1a\x93\
                 \x7f\xae\x6b\xc0\xfc\x0e\xad\xa4\xeb\xad",
        crc: 0x5fd3fd,
    },
];

// The bytes of a page of I/NAV, the bit from which its 196 bits stand, and what stands in its CRC
// field.
struct PageRow {
    name: &'static str,
    bytes: &'static [u8; 25],
    from: usize,
    crc: u64,
}

// Three nominal pages.
static PAGES: [PageRow; 3] = [
    PageRow {
        name: "a page from bit 0",
        bytes: b"\x01\x88\xc0\x00\x7f\xff\xff\xff\x5d\x98\x68\x38\x42\xd0\xab\x18\x00\x00\x00\x00\
                 \x00\x00\x00\x00\x0f",
        from: 0,
        crc: 0xcdd2f1,
    },
    PageRow {
        name: "a page from bit 3",
        bytes: b"\xe0\x42\xee\xeb\x0c\x34\x0f\xff\xff\xff\xff\xff\xff\xff\xfc\xff\xf8\x00\x00\x00\
                 \x00\x00\x00\x00\x01",
        from: 3,
        crc: 0xfdca70,
    },
    PageRow {
        name: "a page from bit 4",
        bytes: b"\xf0\x3f\x63\xb8\x51\x39\xff\xff\xed\xef\xff\xfe\x89\x45\xfe\xff\xff\x00\x00\x00\
                 \x00\x00\x00\x00\x00",
        from: 4,
        crc: 0x5b8491,
    },
];

#[test]
fn bytes_and_pages_have_their_crc(rt: HostRuntime) {
    one_crc();
    every_polynomial_has_a_crc();
    the_register_holds_the_crc();
    crc_of_joined_bytes();
    bits_of_bytes_have_their_crc();
    for row in &BYTES {
        assert_eq!(rt; crc_bytes(row.bytes).value(), row.crc, "{}", row.name);
    }
    for row in &PAGES {
        let bits = Bits::<25>::from_bytes(*row.bytes);
        assert_eq!(rt;
            crc_bits(&bits, row.from.min(4), 196).value(),
            row.crc,
            "{}",
            row.name
        );
    }
}

// The register moves past zeros. The empty frame of RTCM, and the check value by its first bytes
// and its last ones.
#[test]
fn a_mover_moves_past_its_zeros(rt: HostRuntime) {
    let state = with_byte(0, 0xd3);
    let twice = with_byte(with_byte(state, 0), 0);
    let register = twice == 0x47ea4b && shifted(state, 2) == 0x47ea4b && shifted(state, 0) == state;
    let mut mover = Mover::new(2);
    let empty = mover.moved(with_byte(0, 0xd3)) == 0x47ea4b;
    mover.set_count(4);
    let first = crc_bytes(b"12345").value() as u32;
    let last = crc_bytes(b"6789").value() as u32;
    let whole = mover.count() == 4 && mover.moved(first) ^ last == 0xcde703;
    assert!(rt; register && empty && whole);
}
