// What holds of a disk in memory.
ghost use Rattle.std.specs.Prelude.{◌≡◌, ◌<◌, ◌≤◌, ℕ, List, get_or};
ghost use Rattle.el_outside.specs.Disk.{Image};
ghost use Rattle.el_outside.specs.Images.{IsImage};
ghost use Rattle.el_mem_disk.specs.DiskFiles.{FileState, never_written, crashed};

/// Each image of bytes that a crash may leave is chosen by some numbers, where so many files at most were
/// written.
pub fn every_image_is_chosen()
    ensures { (files : ℕ → FileState) (n : ℕ) (c : Image) → ((f : ℕ) → n ≤ f → files f ≡ never_written)
        → ((f : ℕ) → IsImage (files f).kept (c f)) → ((f i : ℕ) → get_or (c f) i 0 < 256)
        → (numbers : List ℕ) × ((f : ℕ) → (crashed files numbers f).bytes ≡ c f) }
{}
