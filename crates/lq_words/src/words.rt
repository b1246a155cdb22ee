//! Terms as rows write them: words in prefix form, each node before its parts.

use lq_trees::Sort;
use std::alloc::{AllocError, Global};

/// What stands around a term, once or many times.
#[derive(Clone, Copy)]
pub enum Shape {
    /// A product of the first part over the term.
    Prod,
    /// An abstraction of the first part over the term.
    Lam,
    /// A local definition: its value, its type, and the term as its rest.
    Let,
    /// The first part, applied to the term.
    App,
    /// The term, applied to the first part.
    Spine,
    /// A product of the term over the first part.
    Nest,
    /// A product of the term over itself.
    Double,
    /// The term, applied to itself.
    Twice,
}

/// What a word stands for.
#[derive(Clone, Copy)]
pub enum Step<'a> {
    /// A bound variable.
    Rel(u32),
    /// A hypothesis.
    Var(&'a str),
    /// A sort.
    Sort(Sort),
    /// A constant.
    Const(&'a str),
    /// A family.
    Ind(&'a str),
    /// A constructor of a family.
    Ctor(&'a str, u32),
    /// The eliminator of a family into a sort.
    Elim(&'a str, Sort),
    /// A variable that waits for a value, with so many entries, each of them the part.
    Evar(u32, u32),
    /// A variable that waits for a value, with so many entries, the parts in order.
    Instance(u32, u32),
    /// So many nodes around the part that comes last.
    Around(Shape, u32),
    /// No such word.
    Unknown,
}

/// The words that begin with these are nodes around a term, as many as the number behind says.
const SHAPES: [(&str, Shape); 8] = [
    ("->", Shape::Prod),
    ("fun^", Shape::Lam),
    ("let^", Shape::Let),
    ("@^", Shape::App),
    ("@*", Shape::Spine),
    ("<-", Shape::Nest),
    ("2^", Shape::Double),
    ("2@", Shape::Twice),
];

/// The sort of that name.
pub fn sort_of(word: &str) -> Option<Sort> {
    if word == "Prop" {
        return Some(Sort::Base);
    }
    let level = word.strip_prefix("Type.")?;
    match level.parse::<u8>() {
        Ok(level) => Some(Sort::Level(level)),
        Err(_) => None,
    }
}

/// Nodes around a term, so many times.
fn shaped<'a>(word: &str) -> Option<Step<'a>> {
    for (prefix, shape) in SHAPES {
        if let Some(count) = word.strip_prefix(prefix) {
            return match count.parse::<u32>() {
                Ok(count) => Some(Step::Around(shape, count)),
                Err(_) => None,
            };
        }
    }
    None
}

/// A variable that waits for a value with entries of its own, from its number and how many entries it has.
fn instance<'a>(number: &str, count: &str) -> Option<Step<'a>> {
    match (number.parse::<u32>(), count.parse::<u32>()) {
        (Ok(number), Ok(count)) => Some(Step::Instance(number, count)),
        _ => None,
    }
}

/// A variable that waits for a value, from what follows its mark.
fn waiting<'a>(text: &str) -> Option<Step<'a>> {
    if let Some((number, count)) = text.split_once('/') {
        return instance(number, count);
    }
    let (number, count) = match text.split_once('*') {
        Some((number, count)) => (number, count),
        None => (text, "0"),
    };
    match (number.parse::<u32>(), count.parse::<u32>()) {
        (Ok(number), Ok(count)) => Some(Step::Evar(number, count)),
        _ => None,
    }
}

/// A family, its constructor or its eliminator.
fn declared<'a>(word: &'a str) -> Option<Step<'a>> {
    if let Some((family, sort)) = word.split_once('!') {
        let sort = sort_of(sort)?;
        return Some(Step::Elim(family, sort));
    }
    match word.split_once(':') {
        Some((family, number)) => match number.parse::<u32>() {
            Ok(number) => Some(Step::Ctor(family, number)),
            Err(_) => None,
        },
        None => Some(Step::Ind(word)),
    }
}

/// What a word without a mark of its own stands for: a sort, a bound variable, nodes around a term, or something of
/// a family.
fn plain<'a>(word: &'a str) -> Option<Step<'a>> {
    if let Some(sort) = sort_of(word) {
        return Some(Step::Sort(sort));
    }
    if let Ok(index) = word.parse::<u32>() {
        return Some(Step::Rel(index));
    }
    match shaped(word) {
        Some(step) => Some(step),
        None => declared(word),
    }
}

/// What a word stands for: `Prop` and `Type.0` sorts, `0` a bound variable, `'a` a hypothesis, `=a` a constant, `a` a
/// family, `a:0` its first constructor, `a!Prop` its eliminator into `Prop`;
/// `?0` a variable that waits for a value, `?0*9` one with nine entries, each of them the part, `?0/9` one with nine
/// entries, the parts in order. Around the last part stand: `->` a product of the first part over it, `fun` an abstraction, `let` a local definition of a value and its
/// type, `@` the first part applied to it; and nine of each: `->9`, `fun^9`, `let^9`, `@^9`. `@*9` applies it to the
/// first part nine times, `<-9` makes it nine times the domain over the first part, `2^9` nine times a product over
/// itself, `2@9` applies it nine times to itself.
fn step_of<'a>(word: &'a str) -> Option<Step<'a>> {
    match word {
        "->" => return Some(Step::Around(Shape::Prod, 1)),
        "fun" => return Some(Step::Around(Shape::Lam, 1)),
        "let" => return Some(Step::Around(Shape::Let, 1)),
        "@" => return Some(Step::Around(Shape::App, 1)),
        _ => {}
    }
    if let Some(name) = word.strip_prefix('\'') {
        return Some(Step::Var(name));
    }
    if let Some(name) = word.strip_prefix('=') {
        return Some(Step::Const(name));
    }
    match word.strip_prefix('?') {
        Some(text) => waiting(text),
        None => plain(word),
    }
}

/// What the words of a text stand for.
pub fn steps_of<'a>(alloc: Global, text: &'a str) -> Result<Vec<Step<'a>>, AllocError> {
    let mut steps = Vec::new(alloc);
    for word in text.split_whitespace() {
        steps.push(step_of(word).unwrap_or(Step::Unknown))?;
    }
    Ok(steps)
}
