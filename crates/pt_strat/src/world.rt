use crate::Bundles;
use pt_eval::Env;

/// What the statements of a rule read and change: the names in scope with their values, and the bundles.
#[derive(Debug, Drop)]
pub struct World {
    pub env: Env,
    pub bundles: Bundles,
}
