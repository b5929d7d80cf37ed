use crate::MachineCheck;
use pt_choice::may_be_shared;

fn workers_share_them<'a>() {
    may_be_shared::<MachineCheck<'a>>();
}
