ghost use Rattle.std.specs.Prelude.{◌≡◌};
ghost use Rattle.atomic_table.specs.Seated.{TableId};
ghost use Rattle.rb_retry.specs.declared.policy.Policy.{Policy};
ghost use Rattle.rb_session.specs.declared.delivery.Delivery.{Delivery};
ghost use Rattle.rb_serving.specs.Serving.{ServesAll};
ghost use Rattle.rb_serving.specs.Terms.{terms_of};
ghost use Rattle.rb_serving.specs.declared.tcp_door.TheConstants.{PAUSE};

use crate::door::Door;
use rb_blocking::Clock;
use rb_lock::Pass;
use rb_protocol::Recipient;
use rb_timer::Timer;

/// A worker that could not let a client in waits this long, in milliseconds, before it tries again.
pub fn pause_has_its_value()
    ensures { PAUSE ≡ 10 }
{}

/// Each visitor that a server's workers let in was served: a session was run on what it sent and of what it was sent,
/// and the entrance got back what is left of it before anything else happened there.
pub fn each_visitor_is_served<T: Timer, D: Door, C: Clock>()
where
    D::Writer: Recipient<Pass<T>>,
    ensures { (clock : C) (policy : Policy) (delivery : Delivery) (table : TableId) → ServesAll
        (terms_of D.Reader.Read D.Writer.Recipient D.Gate.Gate C.Clock clock policy delivery table) T }
{}
