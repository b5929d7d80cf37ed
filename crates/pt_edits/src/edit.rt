use pt_choice::{Octets, Seq};

/// An edit of what is stored under a key.
#[derive(Debug, Drop)]
pub enum Edit {
    /// This value is stored.
    Save(Octets),
    /// This value is stored no longer.
    Delete(Octets),
}

/// Edits, in the order in which they are made.
pub type Edits = Seq<Edit>;
