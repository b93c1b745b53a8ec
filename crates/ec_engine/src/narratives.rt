//! The text of a list, put narrative by narrative, so that it is never held whole.
ghost use Rattle.std.specs.Prelude.{◌≡◌, ◌≤◌, ◌<◌, ◌^◌, ◌++◌, length, IfOk, IsErrOf, IsTrue, OnErr, OnOk};
ghost use Rattle.ec_edge.specs.Causes.{Rose};
ghost use Rattle.ec_edge.specs.Pieces.{AppendsPrefix};
ghost use Rattle.ec_logic.specs.Listing.{ending_text, list_text, narratives_from};
ghost use Rattle.ec_logic.specs.Narrative.{line};
ghost use Rattle.ec_listing.specs.Endings.{list_ending};
ghost use Rattle.ec_engine.specs.Narratives.{narrative_of};

use ec_accept::Accepted;
use ec_clause::ending::Ending;
use ec_edge::{Sink, SinkFault, put_text};
use ec_log::push_ending;
use ec_narr::narrative;
use ec_row::Row;
use std::alloc::{AllocError, Global};

/// Puts the narrative of a truth under a number.
fn put_narrative<O: Sink>(
    alloc: Global,
    out: &mut O,
    accepted: &Accepted,
    truth: &Row,
    number: u64,
) -> Result<(), SinkFault>
    requires { accepted.now.atoms ≡ accepted.now.theory.signature }
    ensures ok { IsTrue (O.tells out.old) → OnOk result (O.bytes out.new ≡ O.bytes out.old ++ narrative_of accepted.now.theory.signature number truth.now) }
    ensures part { IsTrue (O.tells out.old) → OnErr result (AppendsPrefix (narrative_of accepted.now.theory.signature number truth.now) (O.bytes out.old) (O.bytes out.new)) }
    ensures failed { IsErrOf result SinkFault.Failed → Rose (O.faults out.old) (O.faults out.new) }
    ensures tells { O.tells out.new ≡ O.tells out.old }
    ensures faults { O.faults out.old ≤ O.faults out.new }
{
    let text = narrative(alloc, &accepted.theory, &accepted.atoms, truth, number)?;
    put_text(out, &text)
}

/// Puts the narratives of truths, numbered from 1.
fn put_narratives<O: Sink>(
    alloc: Global,
    out: &mut O,
    accepted: &Accepted,
    truths: &[Row],
) -> Result<(), SinkFault>
    requires numbered { accepted.now.atoms ≡ accepted.now.theory.signature }
    requires few { length truths.now < 2 ^ 32 }
    ensures ok { IsTrue (O.tells out.old) → OnOk result (O.bytes out.new ≡ O.bytes out.old ++ narratives_from accepted.now.theory.signature 1 truths.now) }
    ensures part { IsTrue (O.tells out.old) → OnErr result (AppendsPrefix (narratives_from accepted.now.theory.signature 1 truths.now) (O.bytes out.old) (O.bytes out.new)) }
    ensures failed { IsErrOf result SinkFault.Failed → Rose (O.faults out.old) (O.faults out.new) }
    ensures tells { O.tells out.new ≡ O.tells out.old }
    ensures faults { O.faults out.old ≤ O.faults out.new }
{
    let mut number = 1u64;
    for truth in truths {
        put_narrative(alloc, out, accepted, truth, number)?;
        number += 1;
    }
    Ok(())
}

/// The last line of a list that ends so.
pub(crate) fn last_line(alloc: Global, ending: Ending) -> Result<Vec<u8>, AllocError>
    ensures { IfOk result (λ text. text.items ≡ line (ending_text (list_ending ending))) }
{
    let mut out = Vec::new(alloc);
    push_ending(&mut out, &ending)?;
    out.push(b'\n')?;
    Ok(out)
}

/// Puts a list of truths: their narratives, numbered from 1, and the last line, which says how the list ends. After a fault the sink has
/// gained a prefix of that text. One narrative is held at a time.
pub fn put_list<O: Sink>(
    alloc: Global,
    out: &mut O,
    accepted: &Accepted,
    truths: &[Row],
    ending: Ending,
) -> Result<(), SinkFault>
    requires numbered { accepted.now.atoms ≡ accepted.now.theory.signature }
    requires few { length truths.now < 2 ^ 32 }
    ensures ok { IsTrue (O.tells out.old) → OnOk result (O.bytes out.new ≡ O.bytes out.old ++ list_text accepted.now.theory.signature truths.now (list_ending ending)) }
    ensures part { IsTrue (O.tells out.old) → OnErr result (AppendsPrefix (list_text accepted.now.theory.signature truths.now (list_ending ending)) (O.bytes out.old) (O.bytes out.new)) }
    ensures failed { IsErrOf result SinkFault.Failed → Rose (O.faults out.old) (O.faults out.new) }
    ensures tells { O.tells out.new ≡ O.tells out.old }
    ensures faults { O.faults out.old ≤ O.faults out.new }
{
    put_narratives(alloc, out, accepted, truths)?;
    let last = last_line(alloc, ending)?;
    put_text(out, &last)
}
