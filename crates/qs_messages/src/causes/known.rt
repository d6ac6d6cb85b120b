// What is known at a place of a script, by the places of its tokens.

ghost use Rattle.std.specs.Prelude.{◌≡◌, ◌+◌, ◌-◌, ◌^◌, min, true, [], ◌∷◌, ◌++◌, length, slice_get, option_map, unwrap_or, OnOk};
ghost use Rattle.std.specs.List.{count_by, find, position};
ghost use Rattle.qs_messages.specs.Knowns.{declaration_of, declared_elsewhere, declared_here, declares, is_of, kind_named, stands_at, template_here, template_named, those_of};

use crate::causes::operations::Kind;
use crate::causes::source::Source;
use qs_script::tokens::Token;
use std::alloc::{AllocError, Global};

/// A name of an object, or of a formal of a template: where it stands, its kind, and the number of its template.
#[derive(Clone, Copy)]
pub(crate) struct Declared {
    pub(crate) name: usize,
    pub(crate) kind: Kind,
    pub(crate) template: usize,
}

/// What is known at a place.
#[derive(Drop)]
pub(crate) struct Known {
    pub(crate) objects: Vec<Declared>,
    pub(crate) formals: Vec<Declared>,
    pub(crate) clients: Vec<usize>,
    pub(crate) templates: Vec<usize>,
    pub(crate) reserved: Vec<usize>,
    /// Whether the place stands in a template.
    pub(crate) is_template: bool,
    /// The template that a client is started with, and how many objects it was given.
    pub(crate) started: usize,
    pub(crate) given: usize,
}

// The kind that a token names; an account where it names none.
pub(crate) fn kind_of(token: Option<&Token>) -> Kind
    ensures exact { result ≡ kind_named (option_map (λ token. token.now) token.entry) }
{
    match token {
        Some(Token::Buffer) => Kind::Buffer,
        Some(Token::Grid) => Kind::Grid,
        _ => Kind::Account,
    }
}

// The first of some places at which a word stands.
pub(crate) fn place_in(source: Source<'_>, places: &[usize], word: &[u8]) -> Option<usize>
    ensures exact { result ≡ find (stands_at source.entry.text.now source.entry.tokens.now word.now) places.now }
{
    places
        .iter()
        .copied()
        .find(|place| source.word(*place) == word)
}

// The number of the first of some places at which a word stands.
fn number_in(source: Source<'_>, places: &[usize], word: &[u8]) -> Option<usize>
    ensures exact { result ≡ position (stands_at source.entry.text.now source.entry.tokens.now word.now) places.now }
{
    places.iter().position(|place| source.word(*place) == word)
}

// The declaration of a word, of those of a template.
fn declared_in(
    source: Source<'_>,
    declared: &[Declared],
    template: usize,
    word: &[u8],
) -> Option<Declared>
    ensures exact { result ≡ find (declares source.entry.text.now source.entry.tokens.now template word.now) declared.now }
{
    declared.iter().copied().find(|it| it.template == template && source.word(it.name) == word)
}

impl Known {
    /// Nothing is known.
    pub(crate) fn new(alloc: Global) -> Known {
        Known {
            objects: Vec::new(alloc),
            formals: Vec::new(alloc),
            clients: Vec::new(alloc),
            templates: Vec::new(alloc),
            reserved: Vec::new(alloc),
            is_template: false,
            started: 0,
            given: 0,
        }
    }

    /// The number of the template whose text this is, counted from 1.
    pub(crate) fn template(&self) -> usize
        ensures exact { result ≡ length self.now.templates.items }
    {
        self.templates.len()
    }

    /// The object of a word, or in a template the formal.
    pub(crate) fn object(&self, source: Source<'_>, word: &[u8]) -> Option<Declared>
        ensures exact { result ≡ declaration_of source.entry.text.now source.entry.tokens.now self.now word.now }
    {
        if self.is_template {
            return declared_in(source, self.formals.as_slice(), self.template(), word);
        }
        declared_in(source, self.objects.as_slice(), 0, word)
    }

    /// Adds an object, or in a template a formal.
    pub(crate) fn add_object(&mut self, name: usize, kind: Kind) -> Result<(), AllocError>
        ensures added { OnOk result (declared_here self.new
            ≡ declared_here self.old ++ record { name = name; kind = kind; template = template_here self.old } ∷ []) }
        ensures others { OnOk result (declared_elsewhere self.new ≡ declared_elsewhere self.old) }
        ensures same_place { template_here self.new ≡ template_here self.old }
    {
        if self.is_template {
            let template = self.template();
            self.formals.push(Declared {
                name,
                kind,
                template,
            })?;
        } else {
            self.objects.push(Declared {
                name,
                kind,
                template: 0,
            })?;
        }
        Ok(())
    }

    /// Adds a template, whose formals come next.
    pub(crate) fn add_template(&mut self, name: usize) -> Result<(), AllocError>
        ensures added { OnOk result (self.new.templates.items ≡ self.old.templates.items ++ name ∷ []) }
        ensures inside { OnOk result (self.new.is_template ≡ true) }
    {
        self.templates.push(name)?;
        self.is_template = true;
        Ok(())
    }

    /// A client is started with a template; no object is given yet.
    pub(crate) fn start(&mut self, source: Source<'_>, word: &[u8])
        ensures started { self.new.started ≡ unwrap_or (template_named source.entry.text.now source.entry.tokens.now self.old word.now) 0 }
        ensures given { self.new.given ≡ 0 }
    {
        self.started = self.template_of(source, word).unwrap_or(0);
        self.given = 0;
    }

    /// One more object is given.
    pub(crate) fn give(&mut self)
        ensures given { self.new.given ≡ min (self.old.given + 1) (2 ^ 64 - 1) }
    {
        self.given = self.given.saturating_add(1);
    }

    /// The number of the template of a word, counted from 1.
    pub(crate) fn template_of(&self, source: Source<'_>, word: &[u8]) -> Option<usize>
        ensures exact { result ≡ template_named source.entry.text.now source.entry.tokens.now self.now word.now }
    {
        match number_in(source, self.templates.as_slice(), word) {
            Some(number) => Some(number.saturating_add(1)),
            None => None,
        }
    }

    /// How many formals a template has.
    pub(crate) fn formal_count(&self, template: usize) -> usize
        ensures exact { result ≡ count_by (is_of template) self.now.formals.items }
    {
        self.formals
            .iter()
            .filter(|it| it.template == template)
            .count()
    }

    /// The formal of a template at a place.
    pub(crate) fn formal(&self, template: usize, place: usize) -> Option<Declared>
        ensures exact { result ≡ slice_get (those_of template self.now.formals.items) place }
    {
        self.formals
            .iter()
            .copied()
            .filter(|it| it.template == template)
            .nth(place)
    }
}
