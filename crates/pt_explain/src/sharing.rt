use crate::{Explained, Mark, Marks};
use pt_choice::may_be_shared;

fn workers_share_them() {
    may_be_shared::<Explained>();
    may_be_shared::<Mark>();
    may_be_shared::<Marks>();
}
