ghost use Rattle.std.specs.Prelude.{◌≡◌, [], ◌∷◌, ◌++◌, length, IfOk, OnOk, OnErr};

use pt_choice::NoMemory;
use std::alloc::Global;
use std::marker::Model;

/// A part of an example that belongs together: the choices from `from` up to but without `to`.
///
/// Spans are numbered from 0 in the order in which they were entered.
#[derive(Clone, Copy, Debug, PartialEq, Eq)]
pub struct Span {
    /// What kind of part it is. Two spans of one label may stand for each other.
    pub label: u32,
    pub from: u16,
    pub to: u16,
    /// The number of the innermost span that was open when this one was entered.
    pub parent: Option<u16>,
}

/// A list of spans.
#[derive(Debug, Drop)]
pub struct Spans {
    items: Vec<Span>,
}

impl Model for Spans {
    ghost use Rattle.std.specs.Prelude.{List};
    ghost use Rattle.pt_case.specs.declared.span.Span.{Span};

    ghost Value = { List Span };

    ghost view = { λ spans. spans.items.items };
}

impl From<Vec<Span>> for Spans {
    ghost from_gives = { λ items spans. spans ≡ items.items };

    fn from(items: Vec<Span>) -> Spans {
        Spans { items }
    }
}

impl Spans {
    /// No spans.
    pub fn empty(alloc: Global) -> Spans
        ensures { result ≡ [] }
    {
        Spans {
            items: Vec::new(alloc),
        }
    }

    pub fn len(&self) -> usize
        ensures { result ≡ length self.now }
    {
        self.items.len()
    }

    pub fn as_slice(&self) -> &[Span]
        ensures { result.now ≡ self.now }
    {
        self.items.as_slice()
    }

    pub fn copy(&self) -> Result<Spans, NoMemory>
        ensures { IfOk result (λ spans. spans ≡ self.now) }
    {
        let items = Vec::from_slice(*self.items.allocator(), self.items.as_slice())?;
        Ok(Spans { items })
    }

    pub fn push(&mut self, item: Span) -> Result<(), NoMemory>
        ensures ok { OnOk result (self.new ≡ self.old ++ item ∷ []) }
        ensures err { OnErr result (self.new ≡ self.old) }
    {
        self.items.push(item)?;
        Ok(())
    }
}
