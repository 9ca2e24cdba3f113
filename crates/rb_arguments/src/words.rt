use rb_options::{ReplayOptions, ScriptOptions, ServeOptions};

/// What the words of the command line ask for.
#[derive(Drop)]
pub enum Words {
    /// Run a script, from standard input to standard output.
    Script {
        options: ScriptOptions,
        /// The file that the run's history is written to, if any.
        history: Option<String>,
        /// The file with the history that the run continues, if any.
        from: Option<String>,
    },
    /// Check the history in a file.
    Replay {
        options: ReplayOptions,
        /// The file with the history.
        file: String,
    },
    /// Serve clients over TCP.
    Serve {
        options: ServeOptions,
        /// The line that each client is sent first, if any, without its line feed.
        greeting: Option<String>,
        /// The file that the run's history is written to, if any.
        history: Option<String>,
        /// The file with the history that the run continues, if any.
        from: Option<String>,
    },
}
