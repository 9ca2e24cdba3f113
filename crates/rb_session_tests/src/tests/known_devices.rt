// The laws of readers and writers that tell their bytes.

use rb_session::{came_first, sent_last};

#[test]
fn devices_that_tell_their_bytes_agree_with_a_session(_rt: HostRuntime) {
    came_first();
    sent_last();
}
