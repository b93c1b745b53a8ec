//! Deep trees and what is true of them.
ghost use Rattle.std.specs.Prelude.{◌<◌, IfOk};
ghost use Rattle.ec_folding.specs.Tree.{EachAtom};
ghost use Rattle.ec_prop.specs.Prop.{tree_of};

use ec_prop::{Prop, true_in};
use std::alloc::{AllocError, Global};
use std::test::Fail;

// And(1, Or(2, And(1, .. 0))), as deep as asked.
fn alternating(alloc: Global, depth: u32, conjunction: bool) -> Result<Prop, AllocError>
    ensures { IfOk result (λ prop. EachAtom (λ atom. atom < 3) (tree_of prop)) }
{
    if depth == 0 {
        return Ok(Prop::Lit {
            atom: 0,
            positive: true,
        });
    }
    let atom = if conjunction { 1 } else { 2 };
    let first = Prop::Lit {
        atom,
        positive: true,
    };
    let rest = alternating(alloc, depth - 1, !conjunction)?;
    let parts = vec![in alloc; first, rest]?;
    Ok(if conjunction {
        Prop::And(parts)
    } else {
        Prop::Or(parts)
    })
}

/// Whether each of three atoms is true, and the tree with them.
const TRUTHS: &[([bool; 3], bool)] = &[
    ([true, true, false], true),
    ([false, true, false], false),
    ([true, false, false], false),
    ([false, true, true], true),
    ([false, false, true], false),
];

// A formula nests some 400 deep at most, and its tree no deeper.
#[test]
fn deep_trees_are_read(rt: HostRuntime) -> Result<(), Fail> {
    let deep = alternating(rt.alloc(), 1000, true)?;
    for &(truth, want) in TRUTHS {
        assert!(rt; true_in(&deep, &truth) == want, "{truth:?}");
    }
    Ok(())
}
