//! Where the parts of a line stand.

ghost use Rattle.std.specs.Prelude.{◌≡◌, ◌+◌, ◌<◌, ◌≤◌};
ghost use Rattle.pt_made.specs.Parts.{right, start, width, number_at};
ghost use Rattle.pt_made.specs.Lines.{inside};

use pt_val::Place;

/// The place so many columns to the right.
pub(crate) fn right(at: Place, columns: u32) -> Place
    requires here { at.column ≤ 1000 }
    requires near { columns ≤ 1000 }
    ensures { result ≡ right at columns }
{
    Place {
        line: at.line,
        column: at.column + columns,
    }
}

/// Where the k-th line begins.
pub(crate) fn start(k: u32) -> Place
    requires { k < 200 }
    ensures { result ≡ start k }
{
    Place {
        line: k + 1,
        column: 1,
    }
}

/// Where the first statement of the k-th line stands, if it has no settings.
pub(crate) fn inside(k: u32) -> Place
    requires { k < 200 }
    ensures there { result ≡ inside k }
    ensures near { result.column ≤ 17 }
{
    right(start(k), 13 + width(k))
}

fn width(k: u32) -> u32
    requires { k < 200 }
    ensures width { result ≡ width k }
    ensures few { result ≤ 3 }
{
    if k < 10 {
        1
    } else if k < 100 {
        2
    } else {
        3
    }
}

/// The number of the first strategy of the k-th line.
pub(crate) fn number_at(k: u32) -> u32
    requires { k < 200 }
    ensures number { result ≡ number_at k }
    ensures small { result ≤ 300 }
{
    k + (k + 2) / 4
}
