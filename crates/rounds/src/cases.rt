// What a case is about.
use peers::End;
use std::fmt;

// Which ends open a round.
#[derive(Clone, Copy)]
pub(crate) enum Opens {
    Left,
    Right,
    Both,
}

impl Opens {
    pub(crate) fn ends(self) -> &'static [End] {
        match self {
            Opens::Left => &[End::Left],
            Opens::Right => &[End::Right],
            Opens::Both => &[End::Left, End::Right],
        }
    }
}

impl fmt::Display for Opens {
    fn fmt<W: fmt::Write>(&self, f: &mut fmt::Formatter<W>) -> fmt::Result {
        f.write_str(match self {
            Opens::Left => "left opens",
            Opens::Right => "right opens",
            Opens::Both => "both open",
        })
    }
}

// One thing for each end.
#[derive(Clone, Copy, Default)]
pub(crate) struct Sides<T> {
    pub(crate) left: T,
    pub(crate) right: T,
}

impl<T: Copy> Sides<T> {
    pub(crate) fn at(&self, end: End) -> T {
        match end {
            End::Left => self.left,
            End::Right => self.right,
        }
    }

    pub(crate) fn set(&mut self, end: End, value: T) {
        match end {
            End::Left => self.left = value,
            End::Right => self.right = value,
        }
    }
}

// Two replicas of 2 to the power `depth` keys, and the keys that were corrected at each end.
#[derive(Clone, Copy)]
pub(crate) struct Case {
    pub(crate) depth: u32,
    pub(crate) corrected: Sides<&'static [u16]>,
    pub(crate) opens: Opens,
}

impl Case {
    pub(crate) fn new(
        depth: u32,
        left: &'static [u16],
        right: &'static [u16],
        opens: Opens,
    ) -> Case {
        Case {
            depth,
            corrected: Sides { left, right },
            opens,
        }
    }

    pub(crate) fn size(&self) -> u16 {
        1u16.wrapping_shl(self.depth)
    }
}
