ghost use Rattle.std.specs.Prelude.{◌≡◌, ◌<◌, length, slice_get, Some};

use crate::token::Token;
use crate::word::Word;
use std::marker::Model;

/// The tokens of a script in their order. Contracts see the tokens with their texts, and the script's length.
#[derive(Drop)]
pub struct Tokens<'t> {
    words: Vec<Word<'t>>,
    end: usize,
}

impl<'t> Model for Tokens<'t> {
    ghost use Rattle.ql_lex.specs.Lexed.{LexedText};
    ghost use Rattle.ql_lex.specs.Answers.{seen_all};

    ghost Value = { LexedText };

    ghost view = { λ t. record { lexemes = seen_all t.words.items; end = t.end } };
}

impl<'t> Tokens<'t> {
    ghost use Rattle.ql_lex.specs.Lexed.{Lexeme};
    ghost use Rattle.ql_lex.specs.Answers.{seen_all};
    ghost use Rattle.std.specs.Prelude.{map, slice_index_or};

    /// These tokens of a text of `end` bytes.
    pub(crate) fn new(words: Vec<Word<'t>>, end: usize) -> Tokens<'t>
        ensures { result ≡ record { lexemes = seen_all words.entry.items; end = end } }
    {
        Tokens { words, end }
    }

    /// How many tokens there are.
    pub fn len(&self) -> usize
        ensures { result ≡ length self.now.lexemes }
    {
        self.words.len()
    }

    /// The token of this number, from 0 on.
    pub fn token(&self, i: usize) -> Token
        requires { i < length self.now.lexemes }
        ensures { slice_get (map (λ l. l.token) self.now.lexemes) i ≡ Some result }
    {
        self.words[i].token
    }

    /// The text of the token of this number: the script's characters at its span.
    pub fn text(&self, i: usize) -> &'t str
        requires { i < length self.now.lexemes }
        ensures { slice_get (map (λ l. l.text) self.now.lexemes) i ≡ Some result.now }
    {
        self.words[i].text
    }

    /// How many bytes the script has.
    pub fn end(&self) -> usize
        ensures { result ≡ self.now.end }
    {
        self.end
    }
}
