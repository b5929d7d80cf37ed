use crate::firsts::First;
use crate::tally::Tally;
use pt_choice::may_be_shared;

fn workers_share_them() {
    may_be_shared::<First>();
    may_be_shared::<Tally>();
}
