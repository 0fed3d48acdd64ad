//! Functions of lists that grow at the back and shrink at the front.

ghost use Rattle.std.specs.Prelude.{◌≡◌, ◌^◌, ◌+◌, ◌-◌, ◌<◌, ◌++◌, ◌∷◌, [], length, drop, OnErr, OnOk};
ghost use Rattle.wd_frame.specs.Slides.{IsAnswer, IsSmall, Plain, Values, shown};

use crate::answer::Answer;
use wd_value::{OutOfMemory, Value};

/// A function of a list of values that grows at its back and shrinks at its front. In contracts the list is `values`.
pub trait Slide<'a>: Drop {
    ghost values: { Self → Values };

    ghost plain: { Values → Plain };

    /// Adds a value at the back. After an error the list is as before.
    fn push_back(&mut self, value: &'a Value) -> Result<(), OutOfMemory>
        requires { length (values self.old) < 2 ^ 64 - 1 }
        ensures pushed { OnOk result (values self.new ≡ values self.old ++ value.now ∷ []) }
        ensures kept { OnErr result (values self.new ≡ values self.old) };

    fn pop_front(&mut self)
        requires { 0 < length (values self.old) }
        ensures { values self.new ≡ drop 1 (values self.old) };

    fn answer(&self) -> Answer<'a>
        ensures exact { shown result ≡ plain (values self.now) }
        ensures small { IsSmall (length (values self.now)) (shown result) };
}

/// A function whose answer over one list and another after it follows from the answers over each.
pub trait Join<'a>: Slide<'a> {
    /// The answer over no value.
    fn none() -> Answer<'a>
        ensures { IsAnswer Self.plain [] result };

    /// The answer over one value.
    fn one(value: &'a Value) -> Answer<'a>
        ensures { IsAnswer Self.plain (value.now ∷ []) result };

    /// The answer over both lists, where they have fewer values than 64 bits count.
    fn join(first: Answer<'a>, second: Answer<'a>) -> Answer<'a>
        ensures { (xs ys : Values) → IsAnswer Self.plain xs first.entry → IsAnswer Self.plain ys second.entry → length xs + length ys < 2 ^ 64 → IsAnswer Self.plain (xs ++ ys) result };
}
