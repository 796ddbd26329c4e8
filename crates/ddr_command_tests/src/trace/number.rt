//! Numbers at the ends of what a field may spell.
use ddr_trace_text::number::parse_number;

/// A field, the most that its number may be, and the number.
const ENDS: &[(&[u8], u64, Option<u64>)] = &[
    (b"0", 0, Some(0)),
    (b"007", 7, Some(7)),
    (b"8", 7, None),
    (b"00000000000000000001", 9, Some(1)),
    (b"000000000000000000001", 9, None),
    (b"18446744073709551615", u64::MAX, Some(u64::MAX)),
    (b"18446744073709551616", u64::MAX, None),
    (b"", 9, None),
    (b"+1", 9, None),
    (b"1 ", 9, None),
    (b"\xd9\xa1", 9, None),
];

#[test]
fn ends(rt: HostRuntime) {
    for (field, most, number) in ENDS {
        assert_eq!(rt; parse_number(field, *most), *number, "{field:?}");
    }
}
