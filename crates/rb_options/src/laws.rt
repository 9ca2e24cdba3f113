ghost use Rattle.std.specs.Prelude.{◌≡◌};
ghost use Rattle.rb_options.specs.declared.server_run_options.TheConstants.{MOST_WORKERS};
ghost use Rattle.rb_options.specs.declared.serve_options.TheConstants.{GREATEST_PORT, GREATEST_SOCKET, LEAST_SOCKET, MOST_GREETING, MOST_SESSIONS, MOST_TURNS};

/// The limits of a server's options are these numbers. Every other clause that speaks of a limit names the constant.
pub fn option_limits_have_their_values()
    ensures workers { MOST_WORKERS ≡ 16 }
    ensures port { GREATEST_PORT ≡ 65535 }
    ensures sessions { MOST_SESSIONS ≡ 10000 }
    ensures turns { MOST_TURNS ≡ 1000000 }
    ensures least_socket { LEAST_SOCKET ≡ 3 }
    ensures greatest_socket { GREATEST_SOCKET ≡ 1023 }
    ensures greeting { MOST_GREETING ≡ 255 }
{}
