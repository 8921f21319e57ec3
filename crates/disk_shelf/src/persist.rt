//! How values are kept on a disk: each as bytes, its image, and as batches of what happened to it
//! since. A value that is read back may differ from the saved one in what its image doesn't hold.
ghost use Rattle.std.specs.Prelude.{◌≡◌, ◌≢◌, ◌++◌, List, ℕ, replicate};
ghost use Rattle.std.specs.Prelude.{Bool, IfErr, IfOk, OnOk, true};

use ids::Refusal;
use std::alloc::Global;

/// How many bytes hold the length of an image.
pub const HEAD: usize = 8;

/// The greatest length of an image or a batch on a disk, 2^63 - 9: with its length before it, it
/// still has a place in memory.
pub const GREATEST_SAVED: u64 = 9_223_372_036_854_775_799;

/// A way to save values as bytes: a value as an image, and what happened to it since as a batch,
/// which costs less than the image of what it has become. A log of batches follows an image or not,
/// as the image says. The type is a separate one from the values' own, so that their crate and this
/// one don't depend on each other.
pub trait Persist {
    /// The type of what is saved.
    type Value;

    /// The bytes that represent a value, if a log is to follow them, and if none is.
    ghost image: { Bool → Self.Value → List ℕ };

    /// These bytes are read as this value, whether a log follows them or not.
    ghost reads: { List ℕ → Self.Value → Type 0 };

    /// The value that is read back after this one was saved.
    ghost saved: { Self.Value → Self.Value };

    /// This value is never saved: its image is longer than an image of its kind may be.
    ghost too_large: { Self.Value → Type 0 };

    /// Whether a log of batches follows this image.
    ghost logs: { List ℕ → Bool };

    /// This batch leads from the one value to the other.
    ghost leads: { List ℕ → Self.Value → Self.Value → Type 0 };

    /// This value is as one that was read, to which batches may be applied.
    ghost fresh: { Self.Value → Type 0 };

    /// The value's image behind [`HEAD`] zeros, in whose place the image's length is put.
    /// [`from_bytes`](Persist::from_bytes) reads the image as the value once saved. Fails with
    /// `ImageTooLarge` if the value is too large, else with `Memory`.
    fn to_bytes(alloc: Global, logged: bool, value: &Self::Value) -> Result<Vec<u8>, Refusal>
        ensures bytes { IfOk result (λ v. v.items ≡ replicate HEAD 0 ++ image logged value.now) }
        ensures within { OnOk result (too_large value.now → ⊥) }
        ensures readable { OnOk result (reads (image logged value.now) (saved value.now)) }
        ensures refused { IfErr result (λ e. e ≢ Refusal.Memory
            → (e ≡ Refusal.ImageTooLarge) × too_large value.now) }
        ensures last { IfErr result (λ e. e ≡ Refusal.Memory → too_large value.now → ⊥) };

    /// The value that these bytes are read as. Fails with `BadImage` if there is no such value, and
    /// with `Memory`.
    fn from_bytes(alloc: Global, bytes: &[u8]) -> Result<Self::Value, Refusal>
        ensures value { IfOk result (λ v. reads bytes.now v) }
        ensures refused { IfErr result (λ e. e ≢ Refusal.Memory
            → (e ≡ Refusal.BadImage) × ((v : Self.Value) → reads bytes.now v → ⊥)) };

    /// Whether a log of batches follows the image of these bytes. What follows an image without a
    /// log means nothing.
    fn has_log(bytes: &[u8]) -> bool
        ensures { result ≡ logs bytes.now };

    /// Makes the value to which the batch leads from this one. Fails with `BadImage` if the batch
    /// leads from this value to none, and with `Memory`. The value is then of no use.
    fn redo(value: &mut Self::Value, batch: &[u8]) -> Result<(), Refusal>
        requires { fresh value.old }

        ensures led { OnOk result (leads batch.now value.old value.new) }
        ensures refused { IfErr result (λ e. e ≢ Refusal.Memory → (e ≡ Refusal.BadImage)
            × ((last : Self.Value) → leads batch.now value.old last → ⊥)) };

    /// What an image is read as is fresh.
    ghost read_fresh: { (bytes : List ℕ) (v : Self.Value) → reads bytes v → fresh v };

    /// What a batch leads to is fresh.
    ghost led_fresh: { (batch : List ℕ) (v w : Self.Value) → leads batch v w → fresh w };

    /// The image of a value says whether a log is to follow it.
    ghost followed: { (logged : Bool) (value : Self.Value) → logs (image logged value) ≡ logged };

    /// An image is read as one value.
    ghost one_value: { (bytes : List ℕ) (v w : Self.Value)
        → reads bytes v → reads bytes w → v ≡ w };

    /// A batch leads to one value.
    ghost one_end: { (batch : List ℕ) (first v w : Self.Value)
        → leads batch first v → leads batch first w → v ≡ w };
}
