//! Tests of characters.

ghost use Rattle.std.specs.Prelude.{◌≡◌};
ghost use Rattle.lq_grammar.specs.Tokens.{is_blank, starts_name, continues_name};

/// Space, tab, line feed, carriage return.
pub(crate) fn is_blank(c: char) -> bool
    ensures { result ≡ is_blank c }
{
    c == ' ' || c == '\t' || c == '\n' || c == '\r'
}

/// Whether a name may begin with the character.
#[tactic(auto, unfolding(lq_grammar::specs::Tokens::starts_name))]
pub(crate) fn starts_name(c: char) -> bool
    ensures { result ≡ starts_name c }
{
    c == '_' || unicode_ident::is_xid_start(c)
}

/// Whether a name may go on with the character.
#[tactic(auto, unfolding(lq_grammar::specs::Tokens::continues_name))]
pub(crate) fn continues_name(c: char) -> bool
    ensures { result ≡ continues_name c }
{
    c == '\'' || unicode_ident::is_xid_continue(c)
}
