// The format of a book: definitions in specs/, theorems in proofs/. Of code there is the version of a book, which the definitions and the code share,
// and the byte of the trailer that stands for it.

#![tactic(auto)]

ghost use Rattle.std.specs.Prelude.{◌≡◌};
ghost use Rattle.format.specs.Version.{version_byte_lem, Decodes};

// The version of a book, byte 1 of its trailer: 1 or 2. Version 2 is the higher.
#[derive(Clone, Copy, PartialEq, Eq, PartialOrd, Ord)]
pub enum Version {
    One,
    Two,
}

// A byte that is no version.
#[derive(Clone, Copy)]
pub struct UnknownVersion;

impl TryFrom<u8> for Version {
    type Error = UnknownVersion;

    ghost try_from_gives = { Decodes };

    fn try_from(byte: u8) -> Result<Self, UnknownVersion> {
        match byte {
            1 => Ok(Version::One),
            2 => Ok(Version::Two),
            _ => Err(UnknownVersion),
        }
    }
}

impl From<Version> for u8 {
    ghost from_gives = { λ version byte. byte ≡ version_byte_lem version };

    fn from(version: Version) -> u8 {
        match version {
            Version::One => 1,
            Version::Two => 2,
        }
    }
}
