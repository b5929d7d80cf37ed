use pt_choice::Kind;

/// What a case refused, after which it gives no more.
#[derive(Clone, Copy, Debug)]
pub enum Refused {
    /// A question of this kind.
    Question(Kind),
    /// A span.
    Entry,
}
