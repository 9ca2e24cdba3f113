use super::fixtures::expect_same;
use rb_timer::optional_index::OptionalIndex;
use std::process::Abort;

fn expect_index(rt: &impl Abort, index: Option<usize>, wanted: Option<usize>) {
    expect_same(rt, index, wanted);
}

// The word of the greatest index, `usize::MAX - 1`, is next to the word that stands for none.
#[test]
fn has_the_index_that_it_was_made_of(rt: HostRuntime) {
    let greatest = usize::MAX - 1;
    expect_index(&rt, OptionalIndex::none().as_option(), None);
    expect_index(&rt, OptionalIndex::some(0).as_option(), Some(0));
    let index = OptionalIndex::some(greatest);
    expect_index(&rt, index.as_option(), Some(greatest));
}

// An index that was taken is not given again.
#[test]
fn has_no_index_once_it_was_taken(rt: HostRuntime) {
    let mut index = OptionalIndex::some(7);
    expect_index(&rt, index.take(), Some(7));
    expect_index(&rt, index.take(), None);
}
