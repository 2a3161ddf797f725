// The mask of block files.
ghost use Rattle.std.specs.Prelude.{◌≡◌, ◌≢◌, length, IfSome, IfNone};
ghost use Rattle.el_net.specs.Masks.{unmasked};

/// The mask of a folder of block files, as Bitcoin Core keeps it in the file `xor.dat`: the byte at place p
/// of a block file was xored with the byte p mod 8 of it. Eight zeros change nothing.
#[derive(Clone, Copy, Debug, PartialEq, Eq)]
pub struct Mask {
    /// Its bytes, in the order of the file.
    pub bytes: [u8; 8],
}

/// The mask of files that are as they read.
pub const NO_MASK: Mask = Mask { bytes: [0; 8] };

/// Takes the mask off bytes, the first of which stands at the place in its file.
pub fn unmask(mask: Mask, place: u64, bytes: &mut [u8])
    ensures { bytes.new ≡ unmasked mask.bytes place bytes.old }
{
    if mask == NO_MASK {
        return;
    }
    let start = (place % 8) as usize;
    for at in 0..bytes.len() {
        bytes[at] ^= mask.bytes[(start + at % 8) % 8];
    }
}

/// The mask that the bytes of `xor.dat` are: none of another length than eight.
pub fn mask_of(bytes: &[u8]) -> Option<Mask>
    ensures mask { IfSome result (λ mask. mask.bytes ≡ bytes.now) }
    ensures none { IfNone result (length bytes.now ≢ 8) }
{
    match bytes {
        [a, b, c, d, e, f, g, h] => Some(Mask {
            bytes: [*a, *b, *c, *d, *e, *f, *g, *h],
        }),
        _ => None,
    }
}
