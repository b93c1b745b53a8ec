//! Lengths, and where a search starts anew behind them, worked by hand.
use crate::restarts::Restarts;

/// After a hundred clauses of ten literals the mean of late passes that of all by three tenths at the
/// fourth clause of thirty, and the search starts anew again ten clauses later.
#[test]
fn starts_anew_where_clauses_have_become_long(rt: HostRuntime) {
    let mut restarts = Restarts::new();
    for _ in 0..100 {
        assert!(rt; !restarts.count(10));
    }
    for place in 1..15 {
        assert_eq!(rt; restarts.count(30), place == 4 || place == 14);
    }
}
