// What holds of the images that an opening reads.
ghost use Rattle.std.specs.Prelude.{◌<◌, ℕ, List, length};
ghost use Rattle.el_outside.specs.Disk.{Image};
ghost use Rattle.el_outside.specs.declared.archive.TheConstants.{SIZE_LIMIT};
ghost use Rattle.el_row_formats.specs.Tables.{Tables};
ghost use Rattle.el_rows.specs.Reads.{Same};
ghost use Rattle.el_pages.specs.Indexes.{ShowsFor};

/// An image of a disk stands for one index: all tables for which it stands, for one network, are the same.
pub fn an_image_stands_for_one_index()
    ensures { (magic : List ℕ) (image : Image) (m n : ℕ) (a b : Tables) → length (image 29) < SIZE_LIMIT
        → ShowsFor magic image m a → ShowsFor magic image n b → Same a b }
{}
