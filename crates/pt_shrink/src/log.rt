use pt_found::Trail;

/// What was tried so far, and how many strangers may still be tried in vain before the next list is accepted.
#[derive(Drop)]
pub struct Log {
    pub trail: Trail,
    pub allowed: u32,
}
