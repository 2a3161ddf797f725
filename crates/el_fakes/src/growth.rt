// How files in memory grow.
ghost use Rattle.std.specs.Prelude.{◌≡◌, ◌≤◌};
ghost use Rattle.el_fakes.specs.Archives.{size_by, size_ahead};

/// Bytes of a file that come later: the calls before this one find the file's end at the place `from` at the
/// latest.
#[derive(Clone, Copy, Debug, Drop)]
pub struct Later {
    /// The number of the call, counted from 1 on over all calls, that finds the bytes.
    pub call: u64,
    /// The file's number, from 0 on.
    pub file: u32,
    /// The place of the first of these bytes.
    pub from: u64,
}

/// Room that is made ahead in a file: the calls before this one find zeros after its bytes, up to this size.
#[derive(Clone, Copy, Debug, Drop)]
pub struct Room {
    /// The number of the call, counted from 1 on over all calls, that finds the room cut off.
    pub until: u64,
    /// The file's number, from 0 on.
    pub file: u32,
    /// The size of the file with these zeros.
    pub size: u64,
}

// How many bytes a file has after these calls, where it has this size without what comes later.
pub(crate) fn size_now(later: &[Later], calls: u64, file: u32, size: usize) -> usize
    ensures exact { result ≡ size_by calls file later.now size }
    ensures within { result ≤ size }
{
    let mut least = size;
    for more in later {
        if file == more.file && calls < more.call {
            least = least.min(more.from as usize);
        }
    }
    least
}

// The size of a file after these calls, where it has this size without the room that is made ahead.
pub(crate) fn size_with(rooms: &[Room], calls: u64, file: u32, size: u64) -> u64
    ensures exact { result ≡ size_ahead calls file rooms.now size }
    ensures within { size ≤ result }
{
    let mut most = size;
    for room in rooms {
        if file == room.file && calls < room.until {
            most = most.max(room.size);
        }
    }
    most
}
