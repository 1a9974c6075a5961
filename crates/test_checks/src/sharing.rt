//! Which types may go to other threads.

ghost use Rattle.std.specs.Prelude.{◌≡◌};

/// A value of a type that may be sent to another thread and shared with one.
pub fn shared<T: Send + Sync>(value: T) -> T
    ensures value { result ≡ value }
{
    value
}
