use crate::{Suite, Typed};
use pt_choice::may_be_shared;

fn workers_share_them() {
    may_be_shared::<Suite>();
    may_be_shared::<Typed>();
}
