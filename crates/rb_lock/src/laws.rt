ghost use Rattle.std.specs.Prelude.{◌≡◌};
ghost use Rattle.rb_lock.specs.declared.lock.TheConstants.{LOOKS, PAUSES};
ghost use Rattle.rb_lock.specs.declared.pair.TheConstants.{MOST_NAMES};

/// The number of names is at most this, 2^16. Every other clause names the constant.
pub fn most_names_has_its_value()
    ensures { MOST_NAMES ≡ 65536 }
{}

/// How often a thread that finds the lock taken looks at it before it sleeps. No clause counts the looks.
pub fn looks_have_their_value()
    ensures { LOOKS ≡ 4 }
{}

/// How often it pauses between two looks. No clause counts the pauses.
pub fn pauses_have_their_value()
    ensures { PAUSES ≡ 512 }
{}
