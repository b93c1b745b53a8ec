//! Rows over the borders of words.

use crate::Row;
use std::alloc::Global;
use std::cmp::Ordering;
use std::process::Abort;

fn bit(rt: &impl Abort, row: &Row, place: usize) -> bool {
    assert!(rt; place < row.len());
    row.get(place)
}

fn set(rt: &impl Abort, row: &mut Row, place: usize, bit: bool) {
    assert!(rt; place < row.len());
    row.set(place, bit);
}

fn row_of(rt: &impl Abort, alloc: Global, bits: &[bool]) -> Row {
    let mut row = Row::of_len(alloc, bits.len()).expect(rt, "memory");
    for (place, bit) in bits.iter().enumerate() {
        set(rt, &mut row, place, *bit);
    }
    row
}

#[test]
fn places_are_apart(rt: HostRuntime) {
    let alloc = rt.alloc();
    for len in [0_usize, 1, 63, 64, 65, 130] {
        let mut row = Row::of_len(alloc, len).expect(&rt, "memory");
        assert_eq!(&rt; row.len(), len);
        for place in 0..len {
            assert!(&rt; !bit(&rt, &row, place));
            set(&rt, &mut row, place, true);
            assert!(&rt; bit(&rt, &row, place));
            assert!(&rt; place == 0 || bit(&rt, &row, place - 1));
        }
        for place in 0..len {
            set(&rt, &mut row, place, place % 3 == 0);
        }
        for place in 0..len {
            assert_eq!(&rt; bit(&rt, &row, place), place % 3 == 0);
        }
    }
}

#[test]
fn bits_are_kept_in_order(rt: HostRuntime) {
    let alloc = rt.alloc();
    let row = row_of(&rt, alloc, &[true, false, false, true]);
    assert!(&rt;
        bit(&rt, &row, 0) && !bit(&rt, &row, 1) && !bit(&rt, &row, 2) && bit(&rt, &row, 3)
    );
}

fn row_with(rt: &impl Abort, alloc: Global, len: usize, place: usize) -> Row {
    let mut row = Row::of_len(alloc, len).expect(rt, "memory");
    if place < row.len() {
        row.set(place, true);
    }
    row
}

// Of each row the length and its one place that is true (none where that is the length), and which of the two rows
// comes first.
#[test]
fn rows_are_ordered(rt: HostRuntime) {
    let alloc = rt.alloc();
    for (len, place, other_len, other_place, expected) in [
        (0_usize, 0_usize, 0_usize, 0_usize, Ordering::Equal),
        (0, 0, 1, 1, Ordering::Less),
        (1, 0, 1, 1, Ordering::Greater),
        (64, 63, 64, 64, Ordering::Greater),
        (64, 0, 64, 63, Ordering::Greater),
        (65, 64, 65, 63, Ordering::Less),
        (65, 64, 65, 65, Ordering::Greater),
        (130, 128, 130, 127, Ordering::Less),
        (130, 129, 130, 128, Ordering::Less),
        (130, 70, 130, 70, Ordering::Equal),
        (63, 63, 64, 64, Ordering::Less),
        (64, 64, 65, 65, Ordering::Less),
        (64, 64, 65, 64, Ordering::Less),
        (64, 10, 65, 10, Ordering::Less),
        (70, 70, 65, 65, Ordering::Greater),
        (64, 0, 65, 65, Ordering::Greater),
        (64, 0, 200, 1, Ordering::Greater),
    ] {
        let row = row_with(&rt, alloc, len, place);
        let other = row_with(&rt, alloc, other_len, other_place);
        assert!(&rt; row.cmp(&other) == expected);
        assert!(&rt; other.cmp(&row) == expected.reverse());
        assert!(&rt; row.partial_cmp(&other) == Some(expected));
        assert!(&rt; (row == other) == expected.is_eq());
        assert!(&rt; (row < other) == expected.is_lt());
    }
}
