ghost use Rattle.std.specs.Prelude.{ℕ, List, [], ◌∷◌, codes};
ghost use Rattle.std.specs.Borrow.{Bor};
ghost use Rattle.rb_arguments.specs.RightWords.{AreRightWords};

/// `rb_broker replay run.txt` is right, so the promise of `read_words` to take right words is not empty.
pub fn some_words_are_right()
    ensures { (scripted served : Bor (List (Bor (List ℕ)))) → AreRightWords scripted served
        (codes "rb_broker" ∷ codes "replay" ∷ codes "run.txt" ∷ []) }
{}
