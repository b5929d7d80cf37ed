use crate::{Decision, Outcome};
use pt_choice::may_be_shared;

fn workers_share_them() {
    may_be_shared::<Decision>();
    may_be_shared::<Outcome>();
}
