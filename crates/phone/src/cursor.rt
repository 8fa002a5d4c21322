// How far a walk has come in the area of its picture, and which addresses it skips.
ghost use Rattle.std.specs.Prelude.{◌≡◌, ◌≤◌, ◌<◌, length, drop, IfSome};
ghost use Rattle.phone.specs.Areas.{outside};
ghost use Rattle.phone.specs.Cursors.{fresh, leaving, first, rest};

use crate::area::Area;
use std::marker::Model;

pub(crate) const AREA_START: u16 = 16;

// The bytes of a box's memory.
pub(crate) type Picture = [u8; 256];

#[derive(Drop)]
pub(crate) struct Cursor<'a> {
    next: u16,
    end: u16,
    picture: &'a Picture,
    // A flag for each address: fixed memory, since nothing is allocated. Last, so that no padding is behind it: both together would be cleared by a call of `memset`, and the archive for C is to need no name from outside.
    skipped: [bool; 256],
}

// A clause sees what is ahead: the picture, its area's end, and the addresses that are still to be taken.
impl<'a> Model for Cursor<'a> {
    ghost use Rattle.std.specs.Prelude.{◌≤◌};
    ghost use Rattle.phone.specs.Cursors.{Ahead, ahead};

    ghost Value = { Ahead };

    ghost view = { λ c. ahead c.picture.now c.next c.end c.skipped };

    ghost invariant = { λ c. (c.next ≤ c.end) × (c.end ≤ 256) };
}

impl<'a> Cursor<'a> {
    // A cursor at the start of an area that ends before `end`.
    pub(crate) fn new(picture: &'a Picture, end: u16) -> Cursor<'a>
        requires { (16 ≤ end) × (end ≤ 256) }
        ensures value { result ≡ fresh picture.now end }
    {
        Cursor {
            picture,
            next: AREA_START,
            end,
            skipped: [false; 256],
        }
    }

    // The first address past the area.
    pub(crate) fn area_end(&self) -> u16
        ensures value { result ≡ self.now.end }
        ensures bound { result ≤ 256 }
    {
        self.end
    }

    // Takes the next address that is not skipped, if the area has one left, with its byte. No `Iterator`: a walk also counts and skips between two takes.
    pub(crate) fn take(&mut self) -> Option<(u16, u8)>
        ensures value { result ≡ first self.old.picture self.old.left }
        ensures bound { IfSome result (λ t. t.0 < 256) }
        ensures after { self.new ≡ leaving self.old (rest self.old.left) }
    {
        let Some(at) = (self.next..self.end).find(|at| !self.skipped[*at as usize]) else {
            self.next = self.end;
            return None;
        };
        self.next = at + 1;
        Some((at, self.picture[at as usize]))
    }

    // Takes n addresses, or all that are left.
    pub(crate) fn pass(&mut self, n: u8)
        ensures after { self.new ≡ leaving self.old (drop n self.old.left) }
    {
        for _ in 0..n {
            self.take();
        }
    }

    // How many addresses are left. A `for` and no chain: with `filter` and `count` a walk over many TLVs takes three times as long.
    pub(crate) fn count(&self) -> u16
        ensures value { result ≡ length self.now.left }
    {
        let mut n = 0;
        for skipped in &self.skipped[self.next as usize..self.end as usize] {
            if !*skipped {
                n += 1;
            }
        }
        n
    }

    // Skips what lies in the area and is not yet reached. A flag that is computed, and no `fill` or `true`: those become a call of `memset`, and the archive for C is to need no name from outside.
    pub(crate) fn skip(&mut self, area: Area)
        ensures after { self.new ≡ leaving self.old (outside area self.old.left) }
    {
        let ahead = self.next < self.end;
        for skipped in &mut self.skipped[area.below(256)] {
            *skipped |= ahead;
        }
    }
}
