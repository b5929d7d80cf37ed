use crate::{Blobs, Bools, DrawFail, Ints, ListOf, OneOf, Pair, Sampled, Texts};
use pt_choice::may_be_shared;

fn workers_share_them() {
    may_be_shared::<DrawFail>();
    may_be_shared::<Ints>();
    may_be_shared::<Bools>();
    may_be_shared::<Texts>();
    may_be_shared::<Blobs>();
    may_be_shared::<Sampled<i64>>();
    may_be_shared::<ListOf<Ints>>();
    may_be_shared::<Pair<Ints, Bools>>();
    may_be_shared::<OneOf<Ints, Ints>>();
}
