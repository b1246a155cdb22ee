//! Terms as they are written, node by node: each argument and each name that is bound has a node of its own.

ghost use Rattle.std.specs.Prelude.{◌≡◌, ◌<◌, length, map, IfSome, MatchOption};
ghost use Rattle.lq_ast.specs.Plain.{plain, plain_binders, typed, untyped};
ghost use Rattle.lq_elab.specs.Views.{row_tree, far_tree, asked_tree, head_tree, view_tree};

use lq_ast::{Binder, Binders, Domain, Name, Surface};

/// Names that are bound, with their type where one is written, then more of them, over the rest.
#[derive(Clone, Copy)]
pub(crate) struct Row<'t> {
    /// Whether they are those of products.
    pub(crate) is_product: bool,
    /// Names that are bound together.
    pub(crate) names: &'t [Binder],
    /// The type of these, if one is written.
    pub(crate) kind: Option<&'t Surface>,
    /// What is bound behind them.
    pub(crate) groups: &'t [Binders],
    /// The rest.
    pub(crate) body: &'t Surface,
}

/// What is to be elaborated.
#[derive(Clone, Copy)]
pub(crate) enum Asked<'t> {
    /// A term.
    Term(&'t Surface),
    /// A term from one of its binders on.
    Row(Row<'t>),
}

/// A name that is bound, its type if one is written, and the rest.
#[derive(Clone, Copy)]
pub(crate) struct Head<'t> {
    /// The name.
    pub(crate) binder: &'t Binder,
    /// Its type.
    pub(crate) kind: Option<&'t Surface>,
    /// The rest.
    pub(crate) rest: Row<'t>,
}

/// A term by its outermost node.
#[derive(Clone, Copy)]
pub(crate) enum View<'t> {
    /// A product or a function.
    Binder(Head<'t>),
    /// A local definition: the name, the type, the value and the rest.
    LetIn(&'t Option<Name>, &'t Domain, &'t Surface, &'t Surface),
    /// `A -> B`
    Arrow(&'t Surface, &'t Surface),
    /// A function, its first argument and the others.
    Apply(&'t Surface, &'t Surface, &'t [Surface]),
    /// A name.
    Ident(&'t Name),
    /// `_`
    Blank(u64),
    /// `Prop`
    PropSort,
    /// `Type n`
    TypeSort(u8),
    /// A term and the type that is written behind it.
    Cast(&'t Surface, &'t Surface),
    /// `?x`
    Meta(&'t Name),
    /// `?[n]`
    NewVar(&'t Name, u64),
}

/// The names that a group binds, and their type if one is written.
fn parts_of<'t>(group: &'t Binders) -> (&'t [Binder], Option<&'t Surface>)
    ensures { MatchOption result.1 (map untyped result.0.now ≡ plain_binders group.now)
        (λ A. map (typed (plain A.now)) result.0.now ≡ plain_binders group.now) }
{
    match group {
        Binders::Typed(names, kind) => (names.as_slice(), Some(kind.get())),
        Binders::Bare(names) => (names.as_slice(), None),
    }
}

/// The first of names that are bound together.
fn first_of<'t>(row: Row<'t>) -> Option<Head<'t>>
    ensures { MatchOption result (row_tree row.entry ≡ far_tree row.entry) (λ h. head_tree h ≡ row_tree row.entry) }
{
    match row.names.split_first() {
        Some((binder, names)) => Some(Head {
            binder,
            kind: row.kind,
            rest: Row {
                is_product: row.is_product,
                names,
                kind: row.kind,
                groups: row.groups,
                body: row.body,
            },
        }),
        None => None,
    }
}

/// The row without the names that are bound together: the next of its groups comes first.
fn next_of<'t>(row: Row<'t>) -> Option<Row<'t>>
    ensures tree { MatchOption result (far_tree row.entry ≡ plain row.entry.body.now) (λ r. row_tree r ≡ far_tree row.entry) }
    ensures body { IfSome result (λ r. r.body.now ≡ row.entry.body.now) }
    ensures falls { IfSome result (λ r. length r.groups.now < length row.entry.groups.now) }
{
    match row.groups.split_first() {
        Some((group, groups)) => {
            let (names, kind) = parts_of(group);
            Some(Row {
                is_product: row.is_product,
                names,
                kind,
                groups,
                body: row.body,
            })
        }
        None => None,
    }
}

/// The first name that a row binds, if it binds one.
fn head_of<'t>(row: Row<'t>) -> Option<Head<'t>>
    ensures { MatchOption result (row_tree row.entry ≡ plain row.entry.body.now) (λ h. head_tree h ≡ row_tree row.entry) }
{
    let mut at = row;
    'groups: loop {
        if let Some(head) = first_of(at) {
            return Some(head);
        }
        match next_of(at) {
            Some(next) => at = next,
            None => return None,
        }
    }
}

/// A term by its outermost node.
#[cycle(node)]
fn node_of<'t>(term: &'t Surface) -> View<'t>
    ensures { view_tree result ≡ plain term.now }
{
    match term {
        Surface::Forall(groups, body) => {
            let row = Row {
                is_product: true,
                names: &[],
                kind: None,
                groups: groups.as_slice(),
                body: body.get(),
            };
            match head_of(row) {
                Some(head) => View::Binder(head),
                None => node_of(body.get()),
            }
        }
        Surface::Fun(groups, body) => {
            let row = Row {
                is_product: false,
                names: &[],
                kind: None,
                groups: groups.as_slice(),
                body: body.get(),
            };
            match head_of(row) {
                Some(head) => View::Binder(head),
                None => node_of(body.get()),
            }
        }
        Surface::LetIn(name, kind, value, rest) => {
            View::LetIn(name, kind, value.get(), rest.get())
        }
        Surface::Arrow(domain, rest) => View::Arrow(domain.get(), rest.get()),
        Surface::Apply(function, arguments) => match arguments.as_slice().split_first() {
            Some((argument, others)) => View::Apply(function.get(), argument, others),
            None => node_of(function.get()),
        },
        Surface::Ident(name) => View::Ident(name),
        Surface::Blank(place) => View::Blank(*place),
        Surface::PropSort => View::PropSort,
        Surface::TypeSort(level) => View::TypeSort(*level),
        Surface::Cast(inner, kind) => View::Cast(inner.get(), kind.get()),
        Surface::Meta(name) => View::Meta(name),
        Surface::NewVar(name, place) => View::NewVar(name, *place),
    }
}

/// What is to be elaborated by its outermost node.
pub(crate) fn view_of<'t>(asked: Asked<'t>) -> View<'t>
    ensures { view_tree result ≡ asked_tree asked.entry }
{
    match asked {
        Asked::Term(term) => node_of(term),
        Asked::Row(row) => match head_of(row) {
            Some(head) => View::Binder(head),
            None => node_of(row.body),
        },
    }
}
