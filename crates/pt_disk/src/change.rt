use pt_choice::Octets;

/// A call that changes a folder, with the names and the bytes that it was given.
#[derive(Debug, Drop)]
pub enum Change {
    Put(Octets, Octets),
    Sync(Octets),
    Rename(Octets, Octets),
    Remove(Octets),
    Settle,
}
