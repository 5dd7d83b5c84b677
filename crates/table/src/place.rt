//! What a type owes to be the places of a table.
ghost use Rattle.std.specs.Prelude.{◌≡◌, ℕ, Bool, true, false, not, List};
ghost use Rattle.table.specs.Tables.{holds};

/// A place: free, or taken under a key. A key is known by its bytes, however many.
pub trait Place: Sized {
    /// What an entry is looked up by.
    type Key;

    /// What a place that is taken means.
    ghost Entry: { Type 0 };

    ghost taken: { Self → Bool };

    ghost key: { Self → List ℕ };

    ghost entry: { Self → Entry };

    /// The bytes of a key.
    ghost spelt: { Self.Key → List ℕ };

    fn is_free(&self) -> bool
        ensures { result ≡ not (taken self.now) };

    /// Whether the place is taken under the key.
    fn is_at(&self, sought: &Self::Key) -> bool
        ensures { result ≡ holds taken key (spelt sought.now) self.now };

    /// The key of the place, if it is taken.
    fn own_key(&self) -> &Self::Key
        ensures { spelt result.now ≡ key self.now };

    /// Makes the place free.
    fn clear(&mut self)
        ensures { taken self.new ≡ false };
}

/// A place that a `C` changes, where it stands. A change may free the place, and keeps the key otherwise.
// Not a closure: what a change makes of a place is a member here, and would be a premise of each promise below.
pub trait Change<C>: Place {
    ghost changed: { C → Self → Self };

    fn change(&mut self, how: &C)
        ensures is { self.new ≡ changed how.now self.old }
        ensures key { Self.Place.taken self.new ≡ true → Self.Place.key self.new ≡ Self.Place.key self.old };
}
