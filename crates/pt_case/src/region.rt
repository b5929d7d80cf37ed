ghost use Rattle.std.specs.Prelude.{◌≡◌};
ghost use Rattle.pt_case.specs.Region.{ended};

use crate::Span;

/// A span while its case runs: an open one has no end yet.
#[derive(Clone, Copy, Debug)]
pub struct Region {
    pub label: u32,
    pub from: u16,
    pub to: Option<u16>,
    pub parent: Option<u16>,
}

impl Region {
    // The span, which ends here where it is still open.
    pub(crate) fn ended(&self, here: u16) -> Span
        ensures { result ≡ ended here self.now }
    {
        Span {
            label: self.label,
            from: self.from,
            to: self.to.unwrap_or(here),
            parent: self.parent,
        }
    }
}
