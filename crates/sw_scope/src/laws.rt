// Laws of frames that stand on one another.
ghost use Rattle.std.specs.Prelude.{◌≡◌, ℕ, List, [], ◌∷◌, length};
ghost use Rattle.sw_scope.specs.declared.mark.FrameKind.{FrameKind};
ghost use Rattle.sw_scope.specs.Frames.{Variable, set_in, declare_in};
ghost use Rattle.sw_scope.specs.Stack.{Standing, seen, seen_from, unseen, number_in, set_on, declare_on, put_on, popped};

/// What is done to frames that stand on one another is done to the list of those that are seen: an assignment, which
/// leaves the others as they are; a declaration; a new frame, below which those are seen that are seen from where it
/// stands; and to take it away again.
pub fn frames_seen_are_scopes()
    ensures set { (frames : List Standing) (v : Variable) → seen (set_on frames v) ≡ set_in (seen frames) v }
    ensures others { (frames : List Standing) (v : Variable) → unseen (set_on frames v) ≡ unseen frames }
    ensures declare { (frames : List Standing) (v : Variable)
        → seen (declare_on frames v) ≡ declare_in (seen frames) v }
    ensures on { (frames : List Standing) (n : ℕ) (kind : FrameKind)
        → seen (put_on frames n kind) ≡ record { kind = kind; vars = [] } ∷ seen_from (number_in frames n) frames }
    ensures push { (frames : List Standing) (kind : FrameKind)
        → seen (put_on frames (length frames) kind) ≡ record { kind = kind; vars = [] } ∷ seen frames }
    ensures pop { (frames : List Standing) (n : ℕ) (kind : FrameKind) → popped (put_on frames n kind) ≡ frames }
{}
