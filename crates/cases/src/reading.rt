//! A case file read: from its directives to its cases.
use crate::case::{Call, Case, Failing, Part, Run, Verb};
use crate::lines::{Directive, directives};
use crate::misread::Misread;
use crate::pieces::{joined, number};
use std::alloc::{AllocError, Global};
use std::collections::BTreeMap;

/// Where a case file can't be read, and why.
#[derive(Drop)]
pub struct Misplaced {
    pub line: u32,
    pub why: Misread,
}

/// What was read of a case file so far.
#[derive(Drop)]
struct Reader {
    alloc: Global,
    texts: BTreeMap<String, Vec<u8>>,
    /// What the first step of each later case begins with, which further directives belong to.
    given: Vec<Part>,
    is_given: bool,
    cases: Vec<Case>,
}

fn call(word: &str) -> Result<Call, Misread> {
    match word {
        "piece" => Ok(Call::Piece),
        "start" => Ok(Call::Start),
        "append" => Ok(Call::Append),
        "put" => Ok(Call::Put),
        _ => Err(Misread::Directive),
    }
}

/// A call that fails: `append 2`.
fn failing(rest: &str) -> Result<Verb, Misread> {
    let (kind, count) = rest.split_once(" ").ok_or(Misread::Number)?;
    let call = call(kind)?;
    let number = u64::from(number(count)?);
    Ok(Verb::Fail(Failing { call, number }))
}

/// Files that hold the same text: `f{}.e`, `1 to 64`.
fn files(name: &str, range: &str) -> Result<Verb, Misread> {
    let (first, last) = range.split_once(" to ").ok_or(Misread::Directive)?;
    let first = number(first)?;
    let last = number(last)?;
    if name.contains("{}") {
        Ok(Verb::Files { first, last })
    } else {
        Err(Misread::Directive)
    }
}

fn file(rest: &str) -> Result<Verb, Misread> {
    match rest.split_once(" for ") {
        Some((name, range)) => files(name, range),
        None => Ok(Verb::File),
    }
}

/// A line of a file: `4 of l`.
fn line(place: &str) -> Result<Verb, Misread> {
    let (line, _) = place.split_once(" of ").ok_or(Misread::Directive)?;
    Ok(Verb::Line(number(line)? as usize))
}

fn pieces(sizes: &str) -> Result<Verb, Misread> {
    for size in sizes.split_whitespace() {
        number(size)?;
    }
    Ok(Verb::Pieces)
}

/// What a word says by itself.
fn plain(word: &str) -> Result<Verb, Misread> {
    Ok(match word {
        "words" => Verb::Words,
        "prints" => Verb::Prints,
        "or" => Verb::Or,
        "into" => Verb::Into,
        "holds" => Verb::Holds,
        "starts" => Verb::Starts,
        "ends" => Verb::Ends,
        "once" => Verb::Once,
        "writes" => Verb::Writes,
        "cut" => Verb::Cut,
        "swap" => Verb::Swap,
        "exchange" => Verb::Exchange,
        _ => return Err(Misread::Directive),
    })
}

/// What a word says with what follows it.
fn verb(word: &str, rest: &str) -> Result<Verb, Misread> {
    match word {
        "file" if rest.is_empty() => Err(Misread::Directive),
        "file" => file(rest),
        "line" => line(rest),
        "pieces" => pieces(name_in(Verb::Pieces, rest)),
        "status" => Ok(Verb::Status(number(rest)?.min(255) as u8)),
        "fail" => failing(rest),
        "sweep" => Ok(Verb::Sweep(call(rest)?)),
        _ => plain(word),
    }
}

/// The name, or the sizes, in what follows a word.
fn name_in(verb: Verb, rest: &str) -> &str {
    match verb {
        Verb::Files { .. } => rest.split_once(" for ").map_or(rest, |(name, _)| name),
        Verb::Line(_) => rest.split_once(" of ").map_or(rest, |(_, name)| name),
        Verb::Pieces => rest.strip_prefix("of ").unwrap_or(rest),
        _ => rest,
    }
}

/// A directive's head without what says where its text comes from.
fn said(head: &str) -> &str {
    match head.strip_suffix(" as pieces") {
        Some(head) => head,
        None => head.split_once(" is ").map_or(head, |(head, _)| head),
    }
}

fn part(alloc: Global, head: &str, text: Vec<u8>) -> Result<Part, Misread> {
    let (word, rest) = head.split_once(" ").unwrap_or((head, ""));
    let verb = verb(word, rest)?;
    Ok(Part::new(alloc, verb, name_in(verb, rest), text)?)
}

fn push(alloc: Global, step: &mut Vec<Part>, head: &str, text: Vec<u8>) -> Result<(), Misread> {
    step.push(part(alloc, head, text)?)?;
    Ok(())
}

fn copied(alloc: Global, parts: &[Part]) -> Result<Vec<Part>, AllocError> {
    let mut copy = Vec::new(alloc);
    for part in parts {
        copy.push(part.copied()?)?;
    }
    Ok(copy)
}

impl Reader {
    fn new(alloc: Global) -> Reader {
        Reader {
            alloc,
            texts: BTreeMap::new(alloc),
            given: Vec::new(alloc),
            is_given: false,
            cases: Vec::new(alloc),
        }
    }

    /// The text of a directive: its block, the named one, or the pieces of its block.
    fn text(&self, directive: &Directive) -> Result<Vec<u8>, Misread> {
        if directive.head.ends_with(" as pieces") {
            return joined(self.alloc, &directive.block);
        }
        if let Some((_, name)) = directive.head.split_once(" is ") {
            let text = self.texts.get(name).ok_or(Misread::Text)?;
            return Ok(text.clone()?);
        }
        Ok(Vec::from_slice(self.alloc, directive.block.as_bytes())?)
    }

    fn open_case(&mut self, name: &str, line: u32) -> Result<(), Misread> {
        let name = String::from_str(self.alloc, name)?;
        let mut steps = Vec::new(self.alloc);
        steps.push(copied(self.alloc, &self.given)?)?;
        self.cases.push(Case { name, line, steps })?;
        self.is_given = false;
        Ok(())
    }

    fn open_step(&mut self) -> Result<(), Misread> {
        let case = self.cases.last_mut().ok_or(Misread::NoCase)?;
        case.steps.push(Vec::new(self.alloc))?;
        Ok(())
    }

    fn open_given(&mut self) {
        self.given.clear();
        self.is_given = true;
    }

    /// The step that a directive belongs to.
    fn step(&mut self) -> Result<&mut Vec<Part>, Misread> {
        if self.is_given {
            return Ok(&mut self.given);
        }
        let case = self.cases.last_mut().ok_or(Misread::NoCase)?;
        case.steps.last_mut().ok_or(Misread::NoCase)
    }

    fn name_text(&mut self, name: &str, text: Vec<u8>) -> Result<(), AllocError> {
        self.texts
            .insert(String::from_str(self.alloc, name)?, text)?;
        Ok(())
    }

    /// Reads a directive with a text: a text's name, or a part of a step.
    fn add(&mut self, head: &str, text: Vec<u8>) -> Result<(), Misread> {
        match head.strip_prefix("text ") {
            Some(name) => Ok(self.name_text(name, text)?),
            None => push(self.alloc, self.step()?, head, text),
        }
    }

    fn read(&mut self, directive: &Directive) -> Result<(), Misread> {
        match directive.head.as_str() {
            "given" => {
                self.open_given();
                Ok(())
            }
            "then" => self.open_step(),
            head => match head.strip_prefix("case ") {
                Some(name) => self.open_case(name, directive.line),
                None => self.add(said(head), self.text(directive)?),
            },
        }
    }
}

/// The line of the first case with a step that doesn't say all that a run needs.
fn first_unsaid(cases: &[Case]) -> Option<u32> {
    for case in cases {
        if !case.steps.iter().all(|step| Run::of(step).is_whole()) {
            return Some(case.line);
        }
    }
    None
}

/// The cases of a case file, or the first directive that can't be read.
pub fn cases(alloc: Global, text: &str) -> Result<Vec<Case>, Misplaced> {
    let memory = |e: AllocError| Misplaced {
        line: 0,
        why: Misread::from(e),
    };
    let mut reader = Reader::new(alloc);
    for directive in &directives(alloc, text).map_err(memory)? {
        let line = directive.line;
        reader
            .read(directive)
            .map_err(|why| Misplaced { line, why })?;
    }
    match first_unsaid(&reader.cases) {
        Some(line) => Err(Misplaced {
            line,
            why: Misread::Unsaid,
        }),
        None => Ok(reader.cases),
    }
}
