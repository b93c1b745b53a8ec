//! Texts that are put, with a fault at each put in turn.
use ec_edge::{KeptSink, MemSink, Sink, SinkFault, first_line, push_number, put_text};
use std::alloc::{AllocError, Global};
use std::test::Fail;

/// The put that fails when a text of three lines is put, the answer, and what is put until then.
const PUTS: &[(u32, Result<(), SinkFault>, &str)] = &[
    (1, Err(SinkFault::Failed), "on"),
    (2, Err(SinkFault::Failed), "one\ntw"),
    (3, Err(SinkFault::Failed), "one\ntwo\nla"),
    (4, Ok(()), "one\ntwo\nlast"),
];

/// Whether the text is put so where this put fails.
fn puts(
    alloc: Global,
    failing: u32,
    answer: Result<(), SinkFault>,
    bytes: &str,
) -> Result<bool, AllocError> {
    let mut out = MemSink::new(alloc);
    out.fail_put(u64::from(failing))?;
    let got = put_text(&mut out, b"one\ntwo\nlast");
    Ok(got == answer && out.bytes() == bytes.as_bytes())
}

/// How many texts are put as they are to, up to the first that isn't.
fn right_puts(alloc: Global) -> Result<usize, AllocError> {
    for (place, (failing, answer, bytes)) in PUTS.iter().enumerate() {
        if !puts(alloc, *failing, *answer, bytes)? {
            return Ok(place);
        }
    }
    Ok(PUTS.len())
}

/// Puts the largest number behind a few bytes.
fn put_number(kept: &mut KeptSink, number: &mut Vec<u8>) -> Result<(), Fail> {
    kept.put(b"n: ")?;
    push_number(number, u64::MAX)?;
    kept.put(number)?;
    Ok(())
}

#[test]
fn texts(rt: HostRuntime) -> Result<(), Fail> {
    let alloc = rt.alloc();
    assert_eq!(rt; right_puts(alloc)?, PUTS.len());
    assert!(rt; first_line(b"a\n\nb") == Some((b"a".as_slice(), b"\nb".as_slice())));
    assert!(rt; first_line(b"ab").is_none());
    let mut kept = KeptSink::new(alloc);
    put_number(&mut kept, &mut Vec::new(alloc))?;
    assert!(rt; kept.bytes() == b"n: 18446744073709551615".as_slice());
    Ok(())
}
