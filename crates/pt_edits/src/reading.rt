use pt_choice::{Octets, Seq};
use pt_wire::Unpacked;

/// A stored value, and the list that it spells, if it spells one.
#[derive(Debug, Drop)]
pub struct Reading {
    pub bytes: Octets,
    pub unpacked: Option<Unpacked>,
}

/// Readings, in the order of their files' names.
pub type Readings = Seq<Reading>;
