ghost use Rattle.std.specs.Prelude.{◌≡◌, ◌<◌, ◌∷◌, ◌++◌, length, IfSome, IfNone};
ghost use Rattle.rb_protocol.specs.Line.{HasNoLineFeed};
ghost use Rattle.rb_history.specs.Feeds.{first_feed};

use rb_protocol::LINE_FEED;

/// The first line of a text, without its end, and what follows it. `None` exactly if no line is
/// complete.
pub(crate) fn cut_line(text: &[u8]) -> Option<(&[u8], &[u8])>
    ensures text { IfSome result (λ cut. text.now ≡ cut.0.now ++ (LINE_FEED ∷ cut.1.now)) }
    ensures line { IfSome result (λ cut. HasNoLineFeed cut.0.now) }
    ensures shorter { IfSome result (λ cut. length cut.1.now < length text.now) }
    ensures none { IfNone result (HasNoLineFeed text.now) }
{
    let place = first_feed(text)?;
    Some((&text[..place], &text[place + 1..]))
}

// The place of the first line feed.
fn first_feed(text: &[u8]) -> Option<usize>
    ensures { result ≡ first_feed text.now }
{
    text.iter().position(|&byte| byte == LINE_FEED)
}
