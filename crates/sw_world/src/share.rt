// What is shared, and never copied.
ghost use Rattle.std.specs.Prelude.{◌≡◌, IfOk};

use sw_text::Memory;
use sw_values::Value;

/// What is shared in constant time.
pub trait Share {
    /// One more owner of the same.
    fn another(&self) -> Result<Self, Memory>
        ensures { IfOk result (λ other. other ≡ self.now) };
}

impl Share for Value {
    fn another(&self) -> Result<Value, Memory> {
        self.share()
    }
}
