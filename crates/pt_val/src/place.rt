/// A place in a text.
///
/// Lines count from 1, and each ends at a line feed. Columns count bytes, from 1.
#[derive(Clone, Copy, Debug, PartialEq, Eq)]
pub struct Place {
    pub line: u32,
    pub column: u32,
}
