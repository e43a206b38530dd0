//! Bytes that are made where they wait.
ghost use Rattle.std.specs.Prelude.{◌≡◌, ℕ, ◌≤◌, List, length, take};
ghost use Rattle.outside.specs.Feed.{most_in_place};

/// How many bytes can be made in place.
pub(crate) const MOST_IN_PLACE: usize = 64;

/// At most 64 bytes that are made where they wait, so that they aren't copied.
pub trait InPlace {
    ghost bytes_of: { Self → List ℕ };

    /// Writes these bytes into the first of at least 64, and returns how many they are. What is
    /// after them may change.
    fn put_in(&self, room: &mut [u8]) -> usize
        requires { most_in_place ≤ length room.old }
        ensures size { result ≤ most_in_place }
        ensures bytes { take result room.new ≡ bytes_of self.now };
}
