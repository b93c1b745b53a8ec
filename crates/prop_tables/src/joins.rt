//! Parts joined by `and` and by `or`.
use ec_prop::{Prop, conj, disj};
use std::alloc::{AllocError, Global};
use std::test::Fail;

/// A part without parts of its own, in a table.
#[derive(Clone, Copy)]
enum Leaf {
    True,
    False,
    Atom(u64),
}

/// A part, in a table.
enum Part {
    One(Leaf),
    And(&'static [Leaf]),
    Or(&'static [Leaf]),
}

fn leaf_of(row: Leaf) -> Prop {
    match row {
        Leaf::True => Prop::True,
        Leaf::False => Prop::False,
        Leaf::Atom(atom) => Prop::Lit {
            atom,
            positive: true,
        },
    }
}

fn leaves_of(alloc: Global, rows: &[Leaf]) -> Result<Vec<Prop>, AllocError> {
    rows.iter().map(|row| leaf_of(*row)).collect(alloc)
}

fn part_of(alloc: Global, row: &Part) -> Result<Prop, AllocError> {
    match row {
        Part::One(row) => Ok(leaf_of(*row)),
        Part::And(rows) => Ok(Prop::And(leaves_of(alloc, rows)?)),
        Part::Or(rows) => Ok(Prop::Or(leaves_of(alloc, rows)?)),
    }
}

fn parts_of(alloc: Global, rows: &[Part]) -> Result<Vec<Prop>, AllocError> {
    let mut parts = Vec::new(alloc);
    for row in rows {
        parts.push(part_of(alloc, row)?)?;
    }
    Ok(parts)
}

/// Parts, and what they are joined into.
type Case = (&'static str, &'static [Part], Part);

const CONJ: &[Case] = &[
    ("no part", &[], Part::One(Leaf::True)),
    (
        "one part",
        &[Part::One(Leaf::Atom(3))],
        Part::One(Leaf::Atom(3)),
    ),
    (
        "two parts",
        &[Part::One(Leaf::Atom(1)), Part::One(Leaf::Atom(0))],
        Part::And(&[Leaf::Atom(1), Leaf::Atom(0)]),
    ),
    (
        "True alone",
        &[Part::One(Leaf::True), Part::One(Leaf::True)],
        Part::One(Leaf::True),
    ),
    (
        "a True",
        &[Part::One(Leaf::Atom(3)), Part::One(Leaf::True)],
        Part::One(Leaf::Atom(3)),
    ),
    (
        "a False",
        &[
            Part::One(Leaf::Atom(0)),
            Part::One(Leaf::False),
            Part::One(Leaf::Atom(1)),
        ],
        Part::One(Leaf::False),
    ),
    (
        "an And",
        &[
            Part::One(Leaf::Atom(2)),
            Part::And(&[Leaf::Atom(0), Leaf::Atom(1)]),
            Part::One(Leaf::Atom(3)),
        ],
        Part::And(&[Leaf::Atom(2), Leaf::Atom(0), Leaf::Atom(1), Leaf::Atom(3)]),
    ),
    (
        "an And alone",
        &[Part::And(&[Leaf::Atom(0), Leaf::Atom(1)])],
        Part::And(&[Leaf::Atom(0), Leaf::Atom(1)]),
    ),
    (
        "False in an And",
        &[Part::And(&[Leaf::Atom(0), Leaf::False])],
        Part::One(Leaf::False),
    ),
    (
        "an Or",
        &[
            Part::Or(&[Leaf::Atom(0), Leaf::Atom(1)]),
            Part::One(Leaf::True),
        ],
        Part::Or(&[Leaf::Atom(0), Leaf::Atom(1)]),
    ),
];

const DISJ: &[Case] = &[
    ("no part", &[], Part::One(Leaf::False)),
    (
        "one part",
        &[Part::One(Leaf::Atom(3))],
        Part::One(Leaf::Atom(3)),
    ),
    (
        "two parts",
        &[Part::One(Leaf::Atom(1)), Part::One(Leaf::Atom(0))],
        Part::Or(&[Leaf::Atom(1), Leaf::Atom(0)]),
    ),
    (
        "a False",
        &[Part::One(Leaf::Atom(3)), Part::One(Leaf::False)],
        Part::One(Leaf::Atom(3)),
    ),
    (
        "a True",
        &[
            Part::One(Leaf::Atom(0)),
            Part::One(Leaf::True),
            Part::One(Leaf::Atom(1)),
        ],
        Part::One(Leaf::True),
    ),
    (
        "an Or",
        &[
            Part::One(Leaf::Atom(2)),
            Part::Or(&[Leaf::Atom(0), Leaf::Atom(1)]),
            Part::One(Leaf::Atom(3)),
        ],
        Part::Or(&[Leaf::Atom(2), Leaf::Atom(0), Leaf::Atom(1), Leaf::Atom(3)]),
    ),
    (
        "True in an Or",
        &[Part::Or(&[Leaf::Atom(0), Leaf::True])],
        Part::One(Leaf::True),
    ),
    (
        "an And",
        &[
            Part::And(&[Leaf::Atom(0), Leaf::Atom(1)]),
            Part::One(Leaf::False),
        ],
        Part::And(&[Leaf::Atom(0), Leaf::Atom(1)]),
    ),
];

fn joined(alloc: Global, conjunction: bool, rows: &[Part]) -> Result<Prop, AllocError> {
    let parts = parts_of(alloc, rows)?;
    if conjunction {
        conj(parts)
    } else {
        disj(parts)
    }
}

/// The cases that are joined into something else than what is wanted.
fn differing(alloc: Global, conjunction: bool, cases: &[Case]) -> Result<String, AllocError> {
    let mut out = String::new(alloc);
    for (case, rows, want) in cases {
        let got = joined(alloc, conjunction, rows)?;
        let want = part_of(alloc, want)?;
        if got != want {
            out.push_str(format!(in alloc; "{case}: {got:?}, not {want:?}\n")?.as_str())?;
        }
    }
    Ok(out)
}

#[test]
fn parts_are_joined(rt: HostRuntime) -> Result<(), Fail> {
    let alloc = rt.alloc();
    assert_eq!(rt; differing(alloc, true, CONJ)?.as_str(), "");
    assert_eq!(rt; differing(alloc, false, DISJ)?.as_str(), "");
    Ok(())
}
