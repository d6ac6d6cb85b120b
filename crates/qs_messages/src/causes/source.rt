// A text with its tokens.

ghost use Rattle.std.specs.Prelude.{◌≡◌, length, option_map};
ghost use Rattle.qs_messages.specs.Sources.{end_in, span_in, token_in, word_in};

use crate::causes::spans::PlacedToken;
use qs_diagnosis::Span;
use qs_script::tokens::Token;

/// A text with its tokens in order.
#[derive(Clone, Copy)]
pub struct Source<'a> {
    text: &'a [u8],
    tokens: &'a [PlacedToken],
}

impl<'a> Source<'a> {
    /// A text and its tokens.
    pub fn new(text: &'a [u8], tokens: &'a [PlacedToken]) -> Source<'a>
        ensures text { result.text.now ≡ text.now }
        ensures tokens { result.tokens.now ≡ tokens.now }
    {
        Source { text, tokens }
    }

    /// The text.
    pub fn text(self) -> &'a [u8]
        ensures same { result.now ≡ self.entry.text.now }
    {
        self.text
    }

    /// How many tokens there are.
    pub fn len(self) -> usize
        ensures exact { result ≡ length self.entry.tokens.now }
    {
        self.tokens.len()
    }

    /// The token at a place, where there is one.
    pub fn token(self, place: usize) -> Option<&'a Token>
        ensures exact { option_map (λ token. token.now) result ≡ token_in self.entry.tokens.now place }
    {
        match self.tokens.get(place) {
            Some(placed) => Some(&placed.token),
            None => None,
        }
    }

    /// The bytes of the token at a place; none after the last token.
    pub fn word(self, place: usize) -> &'a [u8]
        ensures exact { result.now ≡ word_in self.entry.text.now self.entry.tokens.now place }
    {
        match self.tokens.get(place) {
            Some(placed) if placed.start <= placed.end && placed.end <= self.text.len() => {
                &self.text[placed.start..placed.end]
            }
            _ => b"",
        }
    }

    /// Where the token at a place stands; after the last token, the text's end.
    pub fn span(self, place: usize) -> Span
        ensures exact { result ≡ span_in self.entry.text.now self.entry.tokens.now place }
    {
        match self.tokens.get(place) {
            Some(placed) => Span {
                start: placed.start,
                length: placed.end.saturating_sub(placed.start),
            },
            None => Span {
                start: self.text.len(),
                length: 0,
            },
        }
    }

    /// The place right after a token; after the last token, the text's end.
    pub(crate) fn end_of(self, place: usize) -> Span
        ensures exact { result ≡ end_in self.entry.text.now self.entry.tokens.now place }
    {
        match self.tokens.get(place) {
            Some(placed) => Span {
                start: placed.end,
                length: 0,
            },
            None => Span {
                start: self.text.len(),
                length: 0,
            },
        }
    }
}
