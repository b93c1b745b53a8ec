//! Numbers and words at the front of a line.
use ec_edge::{after_prefix, read_number};

const NUMBERS: &[(&[u8], Option<u64>)] = &[
    (b"0", Some(0)),
    (b"40", Some(40)),
    (b"18446744073709551615", Some(u64::MAX)),
    (b"18446744073709551616", None),
    (b"007", None),
    (b"+7", None),
    (b"-7", None),
    (b"7 ", None),
    (b"", None),
];

#[test]
fn numbers(rt: HostRuntime) {
    for &(text, number) in NUMBERS {
        assert_eq!(rt; read_number(text), number, "at {text:?}");
    }
    let behind = after_prefix(b"log 1", b"log ");
    assert_eq!(rt; behind, Some(b"1".as_slice()));
    assert_eq!(rt; after_prefix(b"lo", b"log "), None);
}
