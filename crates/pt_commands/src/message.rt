use pt_case::Record;
use pt_explain::Explained;
use pt_report::Refusal;
use pt_stored::Entries;
use pt_val::Name;

/// What a call of the program has to say, but for the report of a run.
#[derive(Debug, Drop)]
pub enum Message {
    Refused(Refusal),
    /// What a replay on an item of this name left.
    Replayed {
        item: Name,
        rec: Record,
    },
    /// What the database holds.
    Listed(Entries),
    /// What a replay on an item of this name left, and where it failed what matters of its choices.
    Marked {
        item: Name,
        rec: Record,
        explained: Option<Explained>,
    },
}
