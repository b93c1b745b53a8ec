//! The sentences and the completion statements of a book, or its first refusal.
ghost use Rattle.std.specs.Prelude.{◌≡◌, ◌<◌, ◌++◌, [], IfOk, OnOk, All, length, map, slice_get, unwrap_or};
ghost use Rattle.ec_syntax.specs.View.{content_of, formula_of, placed_of};
ghost use Rattle.ec_syntax.specs.Written as written;
ghost use Rattle.ec_sort.specs.Books.{IsPlacedIn, wanted_in};
ghost use Rattle.ec_sort.specs.Answers.{IsGathered, IsTaken};

use crate::fault::refusal;
use ec_declare::declaration_fault;
use ec_lex::word::Word;
use ec_names::Names;
use ec_syntax::book::{Book, Refusal};
use ec_syntax::statement::{Content, Statement};
use ec_syntax::tree::Tree;
use ec_theory::{Labelled, Sentence, Wanted};
use ec_walk::{Walked, walk};
use std::alloc::{AllocError, Global};

/// The sentences and the completion statements taken so far.
#[derive(Drop)]
pub(crate) struct Gathered {
    pub(crate) labelled: Vec<Labelled>,
    pub(crate) wanted: Vec<Wanted>,
}

/// All of a book's, or its first refusal.
#[derive(Drop)]
pub(crate) enum Gathering {
    Whole(Gathered),
    Refused(Refusal),
}

fn copied(word: &Word) -> Result<Word, AllocError>
    ensures { IfOk result (λ w. w ≡ word.now) }
{
    word.clone()
}

fn copied_label(label: &Option<Word>) -> Result<Option<Word>, AllocError>
    ensures { IfOk result (λ l. l ≡ label.now) }
{
    match label {
        Some(word) => Ok(Some(copied(word)?)),
        None => Ok(None),
    }
}

fn take_sentence(
    alloc: Global,
    names: &Names,
    place: (&Word, u32),
    sentence: (&Option<Word>, &Tree),
    gathered: &mut Gathered,
) -> Result<Option<Refusal>, AllocError>
    ensures { IfOk result (IsTaken names.now place.entry.0.now place.entry.1 (written.sentence sentence.entry.0.now (formula_of sentence.entry.1.now)) gathered.old gathered.new) }
{
    let (file, line) = place;
    let (label, tree) = sentence;
    match walk(alloc, names, tree)? {
        Walked::Refused(fault) => Ok(Some(refusal(file, line, fault.code.number(), fault.name)?)),
        Walked::Formula(formula) => {
            let sentence = Sentence {
                file: copied(file)?,
                line,
                formula,
            };
            let label = copied_label(label)?;
            gathered.labelled.push(Labelled { label, sentence })?;
            Ok(None)
        }
    }
}

fn take_completion(
    place: (&Word, u32),
    label: &Option<Word>,
    predicate: &Word,
    gathered: &mut Gathered,
) -> Result<(), AllocError>
    ensures labelled { OnOk result (gathered.new.labelled ≡ gathered.old.labelled) }
    ensures wanted { OnOk result (gathered.new.wanted.items ≡ gathered.old.wanted.items ++ wanted_in place.entry.0.now place.entry.1 (written.completion label.now predicate.now)) }
{
    let (file, line) = place;
    gathered.wanted.push(Wanted {
        file: copied(file)?,
        line,
        label: copied_label(label)?,
        predicate: copied(predicate)?,
    })?;
    Ok(())
}

fn take(
    alloc: Global,
    names: &Names,
    file: &Word,
    statement: &Statement,
    gathered: &mut Gathered,
) -> Result<Option<Refusal>, AllocError>
    ensures { IfOk result (IsTaken names.now file.now statement.now.line (content_of statement.now.content) gathered.old gathered.new) }
{
    let line = statement.line;
    if let Some(fault) = declaration_fault(alloc, names, &statement.content)? {
        return Ok(Some(refusal(file, line, fault.code.number(), fault.name)?));
    }
    match &statement.content {
        Content::Sentence { label, tree } => {
            take_sentence(alloc, names, (file, line), (label, tree), gathered)
        }
        Content::Completion { label, predicate } => {
            take_completion((file, line), label, predicate, gathered)?;
            Ok(None)
        }
        Content::Sorts(_)
        | Content::Reified(_)
        | Content::Constants { .. }
        | Content::Events(_)
        | Content::Fluents(_)
        | Content::Predicates(_)
        | Content::Noninertial(_)
        | Content::Range { .. }
        | Content::Load(_)
        | Content::Choice { .. }
        | Content::Ignored
        | Content::LeftOut(_) => Ok(None),
    }
}

fn file_at(files: &[Word], file: u32) -> &Word
    requires { file < length files.now }
    ensures { result.now ≡ unwrap_or (slice_get files.now file) [] }
{
    &files[file as usize]
}

/// Takes the statements of a book in order. Linear in the book.
pub(crate) fn gather(alloc: Global, names: &Names, book: &Book) -> Result<Gathering, AllocError>
    requires { All (IsPlacedIn (length book.now.files.items)) (map placed_of book.now.statements.items) }
    ensures { IfOk result (IsGathered names.now book.now.files.items (map placed_of book.now.statements.items)) }
{
    let mut gathered = Gathered {
        labelled: Vec::new(alloc),
        wanted: Vec::new(alloc),
    };
    for placed in &book.statements {
        let file = file_at(&book.files, placed.file);
        if let Some(refusal) = take(alloc, names, file, &placed.statement, &mut gathered)? {
            return Ok(Gathering::Refused(refusal));
        }
    }
    Ok(Gathering::Whole(gathered))
}
