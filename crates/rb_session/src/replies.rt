ghost use Rattle.std.specs.Prelude.{OnOk};
ghost use Rattle.rb_session.specs.Session.{texts_of};
ghost use Rattle.rb_protocol.specs.Sending.{Sends};
ghost use Rattle.rb_session.specs.Outlet.{sent_to, Becomes, MaySend, Passes, WriterTells};
ghost use Rattle.rb_session.specs.Progress.{replies_of};

use crate::held_jobs::HeldJobs;
use crate::outlet::Outlet;
use rb_protocol::{LineReply, Recipient, WriteFault};

/// Sends the lines of a reply, each in one piece, and says when all have been sent. A drain's line is
/// followed by those of the last jobs that are held.
///
/// After an `Err` the outlet has taken the first bytes of the lines, perhaps none.
pub(crate) fn send_replies<V, W: Recipient<V>>(
    outlet: &mut Outlet<'_, W>,
    shown: &V,
    reply: &LineReply,
    held: &HeldJobs,
) -> Result<(), WriteFault>
    requires { MaySend W.Recipient outlet.old shown.now (texts_of (replies_of reply.now held.now)) }
    ensures sent { Sends result
        (sent_to W.Recipient outlet.old) (texts_of (replies_of reply.now held.now)) (sent_to W.Recipient outlet.new) }
    ensures passes { OnOk result (Passes W.Recipient outlet.old (texts_of (replies_of reply.now held.now)) outlet.new) }
    ensures told { WriterTells W.Recipient result outlet.old outlet.new }
    ensures becomes { Becomes W.Recipient outlet.old outlet.new }
{
    outlet.send(shown, reply)?;
    if let LineReply::Drained(count) = reply {
        for job in held.last(*count as usize) {
            if let Some(job) = job {
                outlet.send(shown, &LineReply::Item(*job.element()))?;
            }
        }
    }
    outlet.after_replies(shown)
}
