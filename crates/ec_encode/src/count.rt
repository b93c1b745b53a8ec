//! How many variables the names take.

ghost use Rattle.std.specs.Prelude.{◌≡◌, ◌<◌, ◌^◌};
ghost use Rattle.ec_folding.specs.Tree.{as_trees};
ghost use Rattle.ec_naming.specs.Naming.{names_taken, names_taken_each};
ghost use Rattle.ec_naming.specs.Listing.{names_taken_asserting, names_taken_asserting_each, names_taken_defining, names_taken_defining_each};
ghost use Rattle.ec_prop.specs.Prop.{tree_of, trees_of};
ghost use Rattle.ec_prop.specs.Grounded.{definitions_of};

use ec_prop::{Defined, Prop};

/// How many the naming of a tree takes.
#[cycle(count)]
pub fn names_taken(prop: &Prop) -> u32
    requires { names_taken (tree_of prop.now) < 2 ^ 32 }
    ensures { result ≡ names_taken (tree_of prop.now) }
{
    match prop {
        Prop::True | Prop::False => 1,
        Prop::Lit { .. } => 0,
        Prop::And(parts) | Prop::Or(parts) => names_taken_each(parts) + 1,
    }
}

// How many the naming of these takes, one after the other.
#[cycle(count)]
fn names_taken_each(parts: &[Prop]) -> u32
    requires { names_taken_each (as_trees (trees_of parts.now)) < 2 ^ 32 }
    ensures { result ≡ names_taken_each (as_trees (trees_of parts.now)) }
{
    let mut names = 0;
    for part in parts {
        names += names_taken(part);
    }
    names
}

/// How many the assertion of a tree takes.
#[cycle(count_asserting)]
pub fn names_taken_asserting(prop: &Prop) -> u32
    requires { names_taken_asserting (tree_of prop.now) < 2 ^ 32 }
    ensures { result ≡ names_taken_asserting (tree_of prop.now) }
{
    match prop {
        Prop::True | Prop::False | Prop::Lit { .. } => 0,
        Prop::And(parts) => names_taken_asserting_each(parts),
        Prop::Or(parts) => names_taken_each(parts),
    }
}

/// How many the assertions of these trees take.
#[cycle(count_asserting)]
pub fn names_taken_asserting_each(parts: &[Prop]) -> u32
    requires { names_taken_asserting_each (as_trees (trees_of parts.now)) < 2 ^ 32 }
    ensures { result ≡ names_taken_asserting_each (as_trees (trees_of parts.now)) }
{
    let mut names = 0;
    for part in parts {
        names += names_taken_asserting(part);
    }
    names
}

// How many the definition of a tree takes.
fn names_taken_defining(prop: &Prop) -> u32
    requires { names_taken_defining (tree_of prop.now) < 2 ^ 32 }
    ensures { result ≡ names_taken_defining (tree_of prop.now) }
{
    match prop {
        Prop::True | Prop::False | Prop::Lit { .. } => 0,
        Prop::And(parts) | Prop::Or(parts) => names_taken_each(parts),
    }
}

/// How many these definitions take.
pub fn names_taken_defining_each(definitions: &[Defined]) -> u32
    requires { names_taken_defining_each (definitions_of definitions.now) < 2 ^ 32 }
    ensures { result ≡ names_taken_defining_each (definitions_of definitions.now) }
{
    let mut names = 0;
    for definition in definitions {
        names += names_taken_defining(&definition.scope);
    }
    names
}
