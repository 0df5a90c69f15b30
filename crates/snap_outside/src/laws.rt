//! What a crash leaves of a device on which all is durable.
ghost use Rattle.std.specs.Prelude.{◌≡◌, ℕ, List};
ghost use Rattle.snap_outside.specs.Disk.{settled, IsImage};

/// A crash leaves the bytes of a settled disk as they are.
pub fn images_of_settled()
    ensures { (bytes image : List ℕ) → IsImage (settled bytes) image → image ≡ bytes }
{}
