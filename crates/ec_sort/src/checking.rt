//! A book as a whole.
ghost use Rattle.std.specs.Prelude.{IfOk};
ghost use Rattle.ec_syntax.specs.View.{book_of};
ghost use Rattle.ec_logic.specs.Valid.{IsSignature};
ghost use Rattle.ec_declare.specs.Signatures.{signature_of};
ghost use Rattle.ec_sort.specs.Answers.{CanBeSplit, IsChecked, IsOutcome, IsPutTogether};
ghost use Rattle.ec_sort.specs.Books.{IsCheckable};

use crate::fault::SortFault;
use crate::gathering::{Gathered, Gathering, gather};
use ec_declare::signature_rows;
use ec_names::Names;
use ec_syntax::book::{Book, Refusal};
use ec_theory::{Signature, Sorted};
use std::alloc::{AllocError, Global};

#[derive(Drop)]
pub(crate) enum Outcome {
    Sorted(Sorted),
    Refused(Refusal),
}

// The signature of a book without a fault, beside its sentences and completion statements.
fn sorted(alloc: Global, names: &Names, gathered: Gathered) -> Result<Sorted, AllocError>
    requires { IsSignature (signature_of names.now) }
    ensures { IfOk result (λ s. IsPutTogether names.now gathered s) }
{
    let rows = signature_rows(alloc, names)?;
    let signature = Signature::new(alloc, rows)?;
    let Gathered { labelled, wanted } = gathered;
    Ok(Sorted {
        signature,
        labelled,
        wanted,
    })
}

fn checked(alloc: Global, book: &Book) -> Result<Outcome, AllocError>
    requires { IsCheckable (book_of book.now) }
    ensures { IfOk result (IsOutcome (book_of book.now)) }
{
    let names = Names::of(alloc, &book.statements)?;
    match gather(alloc, &names, book)? {
        Gathering::Whole(gathered) => Ok(Outcome::Sorted(sorted(alloc, &names, gathered)?)),
        Gathering::Refused(refusal) => Ok(Outcome::Refused(refusal)),
    }
}

/// The signature, the sentences and the completion statements of a book, or its first fault.
///
/// Each free variable of a sentence is closed by for all. The sentences are valid, as `split` asks.
/// Linear in the book, with a look-up for each word.
pub fn check(alloc: Global, book: &Book) -> Result<Sorted, SortFault>
    requires { IsCheckable (book_of book.now) }
    ensures answer { IsChecked (book_of book.now) result }
    ensures splits { IfOk result CanBeSplit }
{
    match checked(alloc, book) {
        Ok(Outcome::Sorted(sorted)) => Ok(sorted),
        Ok(Outcome::Refused(refusal)) => Err(SortFault::Refused(refusal)),
        Err(_) => Err(SortFault::Memory),
    }
}
