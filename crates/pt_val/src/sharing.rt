use crate::{Chars, Name, NameStop, Names, Place, Ty, Tys, Val, Vals};
use pt_choice::may_be_shared;

fn workers_share_them() {
    may_be_shared::<Chars>();
    may_be_shared::<Name>();
    may_be_shared::<NameStop>();
    may_be_shared::<Names>();
    may_be_shared::<Place>();
    may_be_shared::<Ty>();
    may_be_shared::<Tys>();
    may_be_shared::<Val>();
    may_be_shared::<Vals>();
}
