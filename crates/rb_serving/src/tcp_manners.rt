ghost use Rattle.std.specs.Prelude.{◌≡◌};

use crate::ending::Ending;
use rb_options::ServeOptions;

/// How a TCP door treats its clients, beside what every one does.
#[derive(Clone, Copy, Debug, Default)]
pub struct TcpManners<'a> {
    /// What whoever is let in is sent first: a line with its line feed, or nothing.
    pub greeting: &'a [u8],
    /// Whether a wait also ends when its client has sent something or hung up.
    pub attentive: bool,
    /// After how many nanoseconds of silence a session is ended, if it is, at least 1.
    pub silent: Option<u64>,
    /// What may end the door's sessions, if anything.
    pub ending: Option<&'a Ending>,
}

impl<'a> TcpManners<'a> {
    /// Those that the options of a server say.
    pub fn of(
        options: &ServeOptions,
        greeting: &'a [u8],
        ending: Option<&'a Ending>,
    ) -> TcpManners<'a>
        ensures { result ≡ record {
          greeting = greeting.entry;
          attentive = options.now.attentive;
          silent = options.now.silent;
          ending = ending.entry;
        } }
    {
        TcpManners {
            greeting,
            attentive: options.attentive,
            silent: options.silent,
            ending,
        }
    }
}
