// The network that a body is for.
ghost use Rattle.std.specs.Prelude.{◌≡◌, [], ◌∷◌};

/// A network, by a type: the records of its block files begin with its magic, and its indexes name it.
pub trait NetworkMagic {
    ghost use Rattle.std.specs.Prelude.{◌≡◌, ℕ, List};

    /// The magic, in the order in which block files have its bytes.
    ghost magic: { List ℕ };

    /// The magic.
    fn magic() -> [u8; 4]
        ensures { result ≡ magic };
}

/// The main network.
pub struct Mainnet;

/// The third test network.
pub struct Testnet3;

/// The network of regression tests.
pub struct Regtest;

impl NetworkMagic for Mainnet {
    ghost magic = { 0xf9 ∷ 0xbe ∷ 0xb4 ∷ 0xd9 ∷ [] };

    fn magic() -> [u8; 4] {
        [0xf9, 0xbe, 0xb4, 0xd9]
    }
}

impl NetworkMagic for Testnet3 {
    ghost magic = { 0x0b ∷ 0x11 ∷ 0x09 ∷ 0x07 ∷ [] };

    fn magic() -> [u8; 4] {
        [0x0b, 0x11, 0x09, 0x07]
    }
}

impl NetworkMagic for Regtest {
    ghost magic = { 0xfa ∷ 0xbf ∷ 0xb5 ∷ 0xda ∷ [] };

    fn magic() -> [u8; 4] {
        [0xfa, 0xbf, 0xb5, 0xda]
    }
}
