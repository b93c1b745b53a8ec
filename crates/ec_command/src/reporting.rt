//! The four lines of a sample.
ghost use Rattle.std.specs.Prelude.{◌≡◌, ◌≤◌, ◌++◌, IfOk, IsErrOf, IsTrue, OnErr, OnOk};
ghost use Rattle.ec_edge.specs.Causes.{Rose};
ghost use Rattle.ec_edge.specs.Pieces.{AppendsPrefix};
ghost use Rattle.ec_logic.specs.Narrative.{line};
ghost use Rattle.ec_engine.specs.Answers.{end_of};
ghost use Rattle.ec_engine.specs.declared.solving.SolveEnd as solves;
ghost use Rattle.ec_command.specs.Ends.{solve_status};
ghost use Rattle.ec_command.specs.LastLine.{last_line};
ghost use Rattle.ec_command.specs.Sample.{report};

use crate::ends::solve_status;
use crate::last_line::last_line;
use crate::sampling::Sampled;
use crate::status::Status;
use ec_clause::ending::Ending;
use ec_edge::{Sink, SinkFault, put_text};
use ec_engine::{SolveEnd, push_count};
use std::alloc::{AllocError, Global};

/// Adds a line with the name of a command and the last line that it put.
fn push_last(out: &mut Vec<u8>, name: &[u8], text: &[u8]) -> Result<(), AllocError>
    ensures { OnOk result (out.new.items ≡ out.old.items ++ line (name.now ++ last_line text.now)) }
{
    out.extend_from_slice(name)?;
    out.extend_from_slice(last_line(text))?;
    out.push(b'\n')?;
    Ok(())
}

/// The report of a sample.
fn report_text(alloc: Global, sampled: &Sampled) -> Result<Vec<u8>, AllocError>
    ensures { IfOk result (λ text. text.items ≡ report sampled.now.size.weight sampled.now.size.atoms sampled.now.solved.list sampled.now.verdict) }
{
    let mut out = Vec::new(alloc);
    push_count(&mut out, b"weight: ", sampled.size.weight)?;
    push_count(&mut out, b"atoms: ", u64::from(sampled.size.atoms))?;
    push_last(&mut out, b"solve: ", sampled.solved.list.bytes())?;
    push_last(&mut out, b"check: ", sampled.verdict.bytes())?;
    Ok(out)
}

/// Puts the report of a sample. After a fault the sink has gained a prefix of it.
pub fn put_report<O: Sink>(alloc: Global, out: &mut O, sampled: &Sampled) -> Result<(), SinkFault>
    ensures ok { IsTrue (O.tells out.old) → OnOk result (O.bytes out.new ≡ O.bytes out.old ++ report sampled.now.size.weight sampled.now.size.atoms sampled.now.solved.list sampled.now.verdict) }
    ensures part { IsTrue (O.tells out.old) → OnErr result (AppendsPrefix (report sampled.now.size.weight sampled.now.size.atoms sampled.now.solved.list sampled.now.verdict) (O.bytes out.old) (O.bytes out.new)) }
    ensures failed { IsErrOf result SinkFault.Failed → Rose (O.faults out.old) (O.faults out.new) }
    ensures tells { O.tells out.new ≡ O.tells out.old }
    ensures faults { O.faults out.old ≤ O.faults out.new }
{
    let text = report_text(alloc, sampled)?;
    put_text(out, &text)
}

/// How the run of a sample ends, once its report was put, or wasn't: as its search ended.
pub fn reported(put: Result<(), SinkFault>, ending: Ending) -> Status
    ensures { result ≡ end_of (λ _. solve_status (SolveEnd.Done ending)) Status.OutFault Status.NoMemory put }
{
    match put {
        Ok(()) => solve_status(&SolveEnd::Done(ending)),
        Err(SinkFault::Failed) => Status::OutFault,
        Err(SinkFault::Memory) => Status::NoMemory,
    }
}
