//! Where `{` ends a sentence, and which other tokens do.

ghost use Rattle.std.specs.Prelude.{◌≡◌, ◌==◌, ◌||◌, ◌&&◌, ◌≤◌, not, [], ◌∷◌, All, MatchOption, codes, bytes_eq, length};
ghost use Rattle.lq_grammar.specs.Selectors.{spelled, is_reserved, is_empty, is_word, is_colon, is_bang, is_open_square, is_close_square};
ghost use Rattle.lq_grammar.specs.Selectors.{is_word_selector, is_named_selector, next_part, is_whole, ranges_to_colon, opens, closes};
ghost use Rattle.lq_grammar.specs.declared.selector.RangePart.TheVariants.{First as first};
ghost use Rattle.std.specs.List.{list_any};
ghost use Rattle.lq_lex.specs.Views.{IsSpanned, is_open_curly};

use lq_grammar::{RangePart, Symbol, Token, TokenKind};

/// The words that are no names.
const RESERVED: [&[u8]; 13] = [
    b"forall",
    b"fun",
    b"let",
    b"in",
    b"Prop",
    b"Type",
    b"match",
    b"lazymatch",
    b"multimatch",
    b"with",
    b"end",
    b"rec",
    b"as",
];

/// Whether a word is no name.
fn is_reserved(word: &[u8]) -> bool
    ensures { result ≡ is_reserved word.now }
{
    RESERVED.contains(&word)
}

/// The bytes of a token.
fn spelled<'t>(text: &'t [u8], token: Token) -> &'t [u8]
    requires { IsSpanned text.now token }
    ensures { result.now ≡ spelled text.now token }
{
    &text[token.start..token.end]
}

fn is_word(kind: TokenKind) -> bool
    ensures { result ≡ is_word kind }
{
    matches!(kind, TokenKind::Name)
}

fn is_colon(kind: TokenKind) -> bool
    ensures { result ≡ is_colon kind }
{
    matches!(kind, TokenKind::Symbol(Symbol::Colon))
}

fn is_bang(kind: TokenKind) -> bool
    ensures { result ≡ is_bang kind }
{
    matches!(kind, TokenKind::Symbol(Symbol::Bang))
}

fn is_open_square(kind: TokenKind) -> bool
    ensures { result ≡ is_open_square kind }
{
    matches!(kind, TokenKind::Symbol(Symbol::OpenSquare))
}

fn is_close_square(kind: TokenKind) -> bool
    ensures { result ≡ is_close_square kind }
{
    matches!(kind, TokenKind::Symbol(Symbol::CloseSquare))
}

/// Whether a word is `all` or `par`.
fn is_scope(word: &[u8]) -> bool
    ensures { result ≡ (bytes_eq word.now (codes "all") || bytes_eq word.now (codes "par")) }
{
    matches!(word, b"all" | b"par")
}

/// Whether the tokens are `all:`, `par:` or `!:`.
fn is_word_selector(text: &[u8], tokens: &[Token]) -> bool
    requires { All (IsSpanned text.now) tokens.now }
    ensures { result ≡ is_word_selector text.now tokens.now }
{
    match tokens {
        [a, b] => is_colon(b.kind)
            && (is_bang(a.kind) || (is_word(a.kind) && is_scope(spelled(text, *a)))),
        _ => false,
    }
}

/// Whether four tokens are `[name]:`.
fn is_named(text: &[u8], a: Token, b: Token, c: Token, d: Token) -> bool
    requires { IsSpanned text.now b }
    ensures { result ≡ (is_open_square a.kind && is_word b.kind && not (is_reserved (spelled text.now b)) && is_close_square c.kind && is_colon d.kind) }
{
    is_open_square(a.kind)
        & is_word(b.kind)
        & !is_reserved(spelled(text, b))
        & is_close_square(c.kind)
        & is_colon(d.kind)
}

/// Whether the tokens are `[name]:`.
#[tactic(auto, using(crate::proofs::SelectorLaws::named_four))]
fn is_named_selector(text: &[u8], tokens: &[Token]) -> bool
    requires { All (IsSpanned text.now) tokens.now }
    ensures { result ≡ is_named_selector text.now tokens.now }
{
    match tokens {
        [a, b, c, d] => is_named(text, *a, *b, *c, *d),
        _ => false,
    }
}

/// What comes next in a list of ranges behind a token that goes on with it.
fn next_part(part: RangePart, kind: TokenKind) -> Option<RangePart>
    ensures { result ≡ next_part part kind }
{
    match (part, kind) {
        (RangePart::First, TokenKind::Number(_)) => Some(RangePart::Behind),
        (RangePart::Behind, TokenKind::Symbol(Symbol::Minus)) => Some(RangePart::Last),
        (RangePart::Behind, TokenKind::Symbol(Symbol::Comma)) => Some(RangePart::First),
        (RangePart::Last, TokenKind::Number(_)) => Some(RangePart::Done),
        (RangePart::Done, TokenKind::Symbol(Symbol::Comma)) => Some(RangePart::First),
        _ => None,
    }
}

/// Whether a list of ranges can end there.
fn is_whole(part: RangePart) -> bool
    ensures { result ≡ is_whole part }
{
    matches!(part, RangePart::Behind | RangePart::Done)
}

/// Whether there are no tokens.
pub(crate) fn is_none(tokens: &[Token]) -> bool
    ensures { result ≡ is_empty tokens.now }
{
    match tokens {
        [] => true,
        _ => false,
    }
}

/// The first token and those behind it.
fn first_and_rest(tokens: &[Token]) -> Option<(Token, &[Token])>
    ensures { MatchOption result (tokens.now ≡ []) (λ r. tokens.now ≡ r.0 ∷ r.1.now) }
{
    match tokens {
        [] => None,
        [token, rest @ ..] => Some((*token, rest)),
    }
}

/// Whether a list of ranges ends before a token, which is a colon and the last.
fn ends_ranges(part: RangePart, kind: TokenKind, behind: &[Token]) -> bool
    ensures { result ≡ (is_whole part && is_colon kind && is_empty behind.now) }
{
    is_whole(part) & is_colon(kind) & is_none(behind)
}

/// Whether the tokens are a list of ranges and a colon.
fn is_ranges_selector(tokens: &[Token]) -> bool
    ensures { result ≡ ranges_to_colon first tokens.now }
{
    let mut part = RangePart::First;
    let mut rest = tokens;
    while let Some((token, behind)) = first_and_rest(rest) {
        match next_part(part, token.kind) {
            Some(next) => {
                part = next;
                rest = behind;
            }
            None => return ends_ranges(part, token.kind, behind),
        }
    }
    false
}

/// Whether a `{` ends the sentence that has these tokens before it.
#[tactic(auto, unfolding(lq_grammar::specs::Selectors::opens))]
fn opens(text: &[u8], tokens: &[Token]) -> bool
    requires { All (IsSpanned text.now) tokens.now }
    ensures { result ≡ opens text.now tokens.now }
{
    is_none(tokens)
        | is_word_selector(text, tokens)
        | is_named_selector(text, tokens)
        | is_ranges_selector(tokens)
}

/// Whether a token is `{`.
pub(crate) fn is_open_curly(kind: TokenKind) -> bool
    ensures { result ≡ is_open_curly kind }
{
    matches!(kind, TokenKind::Symbol(Symbol::OpenCurly))
}

/// Whether a token ends the sentence that has these tokens before it; `braced` says whether there is a `{` among them,
/// behind which no other opens anything.
#[tactic(auto, unfolding(lq_grammar::specs::Selectors::closes), using(crate::proofs::SelectorLaws::braced_opens))]
pub fn closes(kind: TokenKind, text: &[u8], tokens: &[Token], braced: bool) -> bool
    requires spanned { All (IsSpanned text.now) tokens.now }
    requires known { braced ≡ list_any (λ t. is_open_curly t.kind) tokens.now }
    ensures { result ≡ closes kind text.now tokens.now }
{
    match kind {
        TokenKind::Bullet(_, _) => true,
        TokenKind::Symbol(Symbol::Stop) => true,
        TokenKind::Symbol(Symbol::CloseCurly) => true,
        TokenKind::Symbol(Symbol::OpenCurly) => !braced && opens(text, tokens),
        _ => false,
    }
}
