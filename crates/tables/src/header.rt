// A header: its kind in bits 0 to 7, its detail in bits 8 to 31. Internal: the crates above call these.
ghost use Rattle.std.specs.Prelude.{◌≡◌, ◌<◌, ◌^◌};
ghost use Rattle.spec.specs.Grammar.{kind_in, detail_in};
ghost use Rattle.spec.specs.Grammar.{header as Grammar·header};

use crate::kind::Kind;

pub fn kind_of(h: u32) -> u32
    ensures { result ≡ kind_in h }
{
    h & 255
}

pub fn detail_of(h: u32) -> u32
    ensures { result ≡ detail_in h }
{
    h >> 8
}

// The header of a node of a kind.
pub fn header_of<K: Kind>(kind: K, detail: u32) -> u32
    requires { detail < 2 ^ 24 }
    ensures { result ≡ Grammar·header (K.number kind) detail }
{
    header(kind.number(), detail)
}

pub fn header(kind: u32, detail: u32) -> u32
    requires { (kind < 256) × (detail < 2 ^ 24) }
    ensures { result ≡ Grammar·header kind detail }
{
    kind | detail << 8
}
