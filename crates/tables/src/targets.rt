// The kinds of targets, each with its number in document 01, 'Words', and its tables there.
ghost use Rattle.std.specs.Prelude.{◌≡◌};
ghost use Rattle.spec.specs.Grammar.{single_head};
ghost use Rattle.spec.specs.declared.Sort.TheVariants as sorts;
ghost use Rattle.tables.specs.Kinds.{IsTargetKind, target_number};
ghost use Rattle.tables.specs.Finds.{target_finds};

use crate::kind::{Kind, NoKind};

// The kinds of targets.
#[derive(Clone, Copy, Debug, PartialEq, Eq)]
pub enum TargetKind {
    Dot = 64,
    Index = 65,
    Tuple = 66,
    Local = 67,
    LocalCaptured = 68,
    Module = 69,
}

impl TryFrom<u32> for TargetKind {
    type Error = NoKind;

    ghost try_from_gives = { IsTargetKind };

    fn try_from(number: u32) -> Result<Self, NoKind> {
        match number {
            64 => Ok(TargetKind::Dot),
            65 => Ok(TargetKind::Index),
            66 => Ok(TargetKind::Tuple),
            67 => Ok(TargetKind::Local),
            68 => Ok(TargetKind::LocalCaptured),
            69 => Ok(TargetKind::Module),
            _ => Err(NoKind(number)),
        }
    }
}

impl Kind for TargetKind {
    ghost sort = { sorts.Target };

    ghost number = { target_number };

    ghost low = { 64 };

    ghost high = { 69 };

    ghost finds = { target_finds };

    fn number(self) -> u32 {
        self as u32
    }

    fn head_right(self, d: u32) -> bool {
        (self == TargetKind::Tuple) | (d == 0)
    }

    fn pay_count(self, _d: u32, _w: u32) -> usize {
        match self {
            TargetKind::Dot | TargetKind::Local | TargetKind::LocalCaptured => 1,
            TargetKind::Module => 2,
            _ => 0,
        }
    }

    fn pay_right(self, _d: u32, i: usize, w: u32) -> bool {
        match self {
            TargetKind::Dot => w < 65536,
            TargetKind::Module => (i != 1) | (w < 65536),
            _ => true,
        }
    }

    fn part_count(self, d: u32, _w: u32) -> u32 {
        match self {
            TargetKind::Tuple => d,
            TargetKind::Dot => 1,
            TargetKind::Index => 2,
            _ => 0,
        }
    }
}

impl TargetKind {
    // Whether it is no tuple, and a target of this kind may have this detail.
    pub fn single_right(self, d: u32) -> bool
        ensures { result ≡ single_head (target_number self) d }
    {
        (self != TargetKind::Tuple) & (d == 0)
    }
}
