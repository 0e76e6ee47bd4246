//! Who uses parts of files.
ghost use Rattle.std.specs.Prelude.{◌≡◌, ℕ, Bool};

use iol_core::numbers::FileId;

/// Decides whether a part of a file is in use.
pub trait InUse {
    // Whether the part of a file that begins at a place is in use.
    ghost in_use: { Self → ℕ → ℕ → Bool };

    // The parts, by file and place, for which `is_in_use` may be called.
    ghost can_ask: { Self → ℕ → ℕ → Type 0 };

    /// Whether the part of the file that begins at `at` is in use.
    fn is_in_use(&self, file: FileId, at: u32) -> bool
        requires { can_ask self.now file at }
        ensures { result ≡ in_use self.now file at };
}
