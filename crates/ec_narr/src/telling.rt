//! Narratives.
ghost use Rattle.std.specs.Prelude.{◌≡◌, IfOk};
ghost use Rattle.ec_logic.specs.Atom.{structure_of};
ghost use Rattle.ec_logic.specs.Narrative.{narrative as narrative_text};
ghost use Rattle.ec_logic.specs.Universe.{universe_of};

use crate::predicates::push_predicates;
use crate::times::push_times;
use ec_atom::Atoms;
use ec_edge::push_number;
use ec_row::Row;
use ec_theory::Theory;
use std::alloc::{AllocError, Global};

/// The narrative of a truth of the visible atoms, under a number. Linear in the visible atoms and the text.
pub fn narrative(
    alloc: Global,
    theory: &Theory,
    atoms: &Atoms,
    truth: &Row,
    number: u64,
) -> Result<Vec<u8>, AllocError>
    requires { atoms.now ≡ theory.now.signature }
    ensures { IfOk result (λ text. text.items ≡ narrative_text theory.now.signature (structure_of (universe_of theory.now.signature) truth.now) number) }
{
    let signature = &theory.signature;
    let predicates = signature.predicates();
    prove!(predicates >= 6);
    let mut out = Vec::new(alloc);
    out.extend_from_slice(b"model ")?;
    push_number(&mut out, number)?;
    out.extend_from_slice(b":\n")?;
    push_times(&mut out, signature, atoms, truth)?;
    out.extend_from_slice(b"P\n")?;
    push_predicates(&mut out, signature, atoms, truth)?;
    Ok(out)
}
