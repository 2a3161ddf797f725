// What holds of the model of a disk, sentence by sentence.
ghost use Rattle.std.specs.Prelude.{◌≡◌, ◌⊎◌, ◌↔◌, ℕ, ◌<◌, ◌≤◌, ◌+◌, List, [], ◌∷◌, length, take, get_or, true, false};
ghost use Rattle.el_outside.specs.Disk.{Image, over, Torn, Cut, OnFile, Follows, NothingNew, OnDisk};
ghost use Rattle.el_outside.specs.Images.{Kept, is_written, IsImage, synced, written, shortened, at_file, LeavesImages, LeftSince};
ghost use Rattle.el_outside.specs.Moments.{Elapses};

/// The disk as it reads is one of its images: after a sync; after a write of which any front happened, or
/// nothing; after a cut that happened or didn't.
pub fn reads_are_images()
    ensures synced { (bytes : List ℕ) → IsImage (synced bytes) bytes }
    ensures written { (kept : Kept) (at n : ℕ) (seen front : List ℕ) → at ≤ length seen → length front ≤ n
        → IsImage kept seen → IsImage (written at n kept) (over seen at front) }
    ensures not_written { (kept : Kept) (at n : ℕ) (seen : List ℕ)
        → IsImage kept seen → IsImage (written at n kept) seen }
    ensures cut { (kept : Kept) (n : ℕ) (seen : List ℕ) → n ≤ length seen
        → IsImage kept seen → IsImage (shortened n kept) (take n seen) }
    ensures not_cut { (kept : Kept) (n : ℕ) (seen : List ℕ)
        → IsImage kept seen → IsImage (shortened n kept) seen }
{}

/// After a sync that succeeds the file's image is what a read gives, and no file has an image that it hadn't.
pub fn syncs_settle()
    ensures only { (bytes c : List ℕ) → IsImage (synced bytes) c → c ≡ bytes }
    ensures on_disk { (kept : ℕ → Kept) (file : ℕ) (seen : Image)
        → OnDisk file seen (LeavesImages (at_file kept file (synced (seen file)))) }
    ensures nothing_new { (kept : ℕ → Kept) (file : ℕ) (seen : List ℕ) → IsImage (kept file) seen
        → NothingNew (LeavesImages kept) (LeavesImages (at_file kept file (synced seen))) }
{}

/// Each range that was written since the last sync, once or twice, by a write that failed or didn't, may hold
/// any bytes.
pub fn written_ranges_hold_any_bytes()
    ensures any { (kept : Kept) (c b : List ℕ) → IsImage kept c → length b ≡ length c
        → ((i : ℕ) → is_written kept.ranges i ≡ false → get_or b i 0 ≡ get_or c i 0) → IsImage kept b }
    ensures ranges { (kept : Kept) (at n i : ℕ) → is_written (written at n kept).ranges i ≡ true
        ↔ ((is_written kept.ranges i ≡ true) ⊎ ((at ≤ i) × (i < at + n))) }
{}

/// All past the end that the file had at the last sync may hold any bytes.
pub fn past_the_end_are_any_bytes()
    ensures { (kept : Kept) (c b : List ℕ) → IsImage kept c → length b ≡ length c
        → ((i : ℕ) → i < length kept.bytes → get_or b i 0 ≡ get_or c i 0) → IsImage kept b }
{}

/// The size in an image is any number from the least to the greatest since the last sync, and no other.
pub fn sizes_lie_between()
    ensures within { (kept : Kept) (c : List ℕ) → IsImage kept c
        → (kept.least ≤ length c) × (length c ≤ kept.greatest) }
    ensures any { (kept : Kept) (n : ℕ) → kept.least ≤ n → n ≤ kept.greatest
        → (c : List ℕ) × (length c ≡ n) × IsImage kept c }
{}

/// No image has other bytes than the synced ones but in the ranges written since and past the end at the
/// sync.
pub fn other_bytes_stay()
    ensures { (kept : Kept) (c : List ℕ) (i : ℕ) → IsImage kept c → i < length c → i < length kept.bytes
        → is_written kept.ranges i ≡ false → get_or c i 0 ≡ get_or kept.bytes i 0 }
{}

/// Files fail independently: any image of one file, with any images of the others, is an image.
pub fn files_fail_independently()
    ensures { (kept : ℕ → Kept) (c : Image) (file : ℕ) (b : List ℕ) → LeavesImages kept c
        → IsImage (kept file) b
        → LeavesImages kept (at_file c file b) }
{}

/// The clauses of a disk ask nothing that the model doesn't give: each of its images after a write or a cut
/// is one from before after the step of that call.
pub fn model_keeps_the_clauses()
    ensures write { (kept : ℕ → Kept) (file at n : ℕ) (seen : List ℕ)
        → IsImage (kept file) seen → at ≤ length seen
        → Follows (OnFile file (Torn at n)) (LeavesImages kept)
        (LeavesImages (at_file kept file (written at n (kept file)))) }
    ensures cut { (kept : ℕ → Kept) (file n : ℕ) (seen : List ℕ) → IsImage (kept file) seen
        → Follows (OnFile file (Cut n)) (LeavesImages kept)
        (LeavesImages (at_file kept file (shortened n (kept file)))) }
{}

/// A crash since a moment might have left what it might have left by a call, and what it may leave after it,
/// and nothing else.
pub fn moments_add_up()
    ensures { (before now : ℕ → Kept) (past : List (ℕ → Kept))
        → Elapses (length past) (length (before ∷ past))
        (LeftSince before past) (LeftSince now (before ∷ past)) (LeavesImages now) }
{}

/// A life starts from one of the images that the life before may leave at its end. What it then may leave
/// itself are those images, and not only the one that it reads as.
pub fn lives_go_on()
    ensures { (now : ℕ → Kept) (past : List (ℕ → Kept)) (c : Image)
        → LeftSince now past (length past) c ↔ LeftSince now [] 0 c }
{}
