//! The lines of refusals, put for any command.
ghost use Rattle.std.specs.Prelude.{◌≡◌, ◌≤◌, ◌++◌, IfOk, IsErrOf, IsTrue, OnErr, OnOk};
ghost use Rattle.ec_edge.specs.Causes.{Rose};
ghost use Rattle.ec_edge.specs.Pieces.{AppendsPrefix};
ghost use Rattle.ec_load.specs.Refusals.{in_file, refused};
ghost use Rattle.ec_engine.specs.Refusals.{two_digits, refusal_line};

use ec_accept::of_file;
use ec_edge::{Sink, SinkFault, push_number, put_text};
use ec_syntax::book::Refusal;
use std::alloc::{AllocError, Global};

fn push_two_digits(out: &mut Vec<u8>, n: u8) -> Result<(), AllocError>
    ensures { OnOk result (out.new.items ≡ out.old.items ++ two_digits n) }
{
    out.push(b'0' + n / 10)?;
    out.push(b'0' + n % 10)?;
    Ok(())
}

/// The line of a refusal.
fn refusal_text(alloc: Global, refusal: &Refusal) -> Result<Vec<u8>, AllocError>
    ensures { IfOk result (λ text. text.items ≡ refusal_line refusal.now) }
{
    let mut out = Vec::from_slice(alloc, b"refused E")?;
    push_two_digits(&mut out, refusal.code)?;
    out.push(b' ')?;
    out.extend_from_slice(refusal.file.bytes())?;
    out.push(b':')?;
    push_number(&mut out, u64::from(refusal.line))?;
    out.extend_from_slice(b": ")?;
    out.extend_from_slice(refusal.name.bytes())?;
    out.push(b'\n')?;
    Ok(out)
}

/// Puts the line of a refusal, and answers the refusal. After a fault the sink has gained a prefix of that line.
pub fn refuse<O: Sink>(alloc: Global, out: &mut O, refusal: Refusal) -> Result<Refusal, SinkFault>
    ensures same { IfOk result (λ put. put ≡ refusal) }
    ensures ok { IsTrue (O.tells out.old) → OnOk result (O.bytes out.new ≡ O.bytes out.old ++ refusal_line refusal) }
    ensures part { IsTrue (O.tells out.old) → OnErr result (AppendsPrefix (refusal_line refusal) (O.bytes out.old) (O.bytes out.new)) }
    ensures failed { IsErrOf result SinkFault.Failed → Rose (O.faults out.old) (O.faults out.new) }
    ensures tells { O.tells out.new ≡ O.tells out.old }
    ensures faults { O.faults out.old ≤ O.faults out.new }
{
    let text = refusal_text(alloc, &refusal)?;
    put_text(out, &text)?;
    Ok(refusal)
}

/// Refuses a file as a whole, under a code and with a name: puts the line of that refusal, and answers it, as [`refuse`].
pub fn refuse_file<O: Sink>(
    alloc: Global,
    out: &mut O,
    code: u8,
    file: &str,
    name: &str,
) -> Result<Refusal, SinkFault>
    ensures same { IfOk result (λ put. put ≡ refused code (in_file file.now 0) name.now) }
    ensures ok { IsTrue (O.tells out.old) → OnOk result (O.bytes out.new ≡ O.bytes out.old ++ refusal_line (refused code (in_file file.now 0) name.now)) }
    ensures part { IsTrue (O.tells out.old) → OnErr result (AppendsPrefix (refusal_line (refused code (in_file file.now 0) name.now)) (O.bytes out.old) (O.bytes out.new)) }
    ensures failed { IsErrOf result SinkFault.Failed → Rose (O.faults out.old) (O.faults out.new) }
    ensures tells { O.tells out.new ≡ O.tells out.old }
    ensures faults { O.faults out.old ≤ O.faults out.new }
{
    let refusal = of_file(alloc, code, file, name)?;
    refuse(alloc, out, refusal)
}
