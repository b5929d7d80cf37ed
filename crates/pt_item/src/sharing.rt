use crate::ItemCheck;
use pt_case::Check;
use pt_choice::may_be_shared;

fn workers_share_them<'a, C: Check + 'a>() {
    may_be_shared::<ItemCheck<'a, C>>();
}
