// Calls that are repeated, for measuring their time.
ghost use Rattle.std.specs.Prelude.{◌≡◌, ◌-◌, List, length, ⊤};
ghost use Rattle.std.specs.List.{FoldsTo};

// A call with all that it is lent. A trait, so that `last_of` asks nothing: of a closure it would ask that it can be called, and no field of a
// struct may say that of a closure.
pub(crate) trait Call {
    type Answer: Drop;

    // The call may give this answer and leave this behind. The default says nothing: a program prints what its calls give, and no contract can say
    // what is printed.
    ghost gives: { Self → Self.Answer → Self → Type 0 } = { λ _ _ _. ⊤ };

    fn call(&mut self) -> Self::Answer
        ensures { gives self.old result self.new };
}

// The answer of the last of so many calls, or of the one where that is 0.
pub(crate) fn last_of<C: Call>(times: u32, repeated: &mut C) -> C::Answer
    ensures { (others : List C.Answer) × (before : C)
        × (length others ≡ times - 1) × FoldsTo C.gives repeated.old others before × C.gives before result repeated.new }
{
    for _ in 1..times {
        repeated.call();
    }
    repeated.call()
}
