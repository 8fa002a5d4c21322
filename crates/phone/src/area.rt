// Areas that control TLVs name, of lock bits or of reserved bytes: a walk skips them.
ghost use Rattle.std.specs.Prelude.{◌≡◌, ◌^◌, ◌<◌, ◌≤◌, min};
ghost use Rattle.phone.specs.Areas.{kind_of, control_of, starts, full, named};

use std::ops::Range;

const LOCK_CONTROL: u8 = 0x01;

const MEMORY_CONTROL: u8 = 0x02;

// What a control TLV names: an area of lock bits, or one of reserved bytes.
#[derive(Clone, Copy)]
pub(crate) enum Control {
    Lock,
    Memory,
}

impl Control {
    // The control whose type byte this is, if it is one's.
    pub(crate) fn of(kind: u8) -> Option<Control>
        ensures value { result ≡ control_of kind }
    {
        match kind {
            LOCK_CONTROL => Some(Control::Lock),
            MEMORY_CONTROL => Some(Control::Memory),
            _ => None,
        }
    }
}

// Addresses from `start` up to `stop`, without `stop`. No plainer as a `Range`: the layout rules in specs/ speak of areas.
#[derive(Clone, Copy)]
pub(crate) struct Area {
    start: u32,
    stop: u32,
}

// Where the area of a control TLV starts: the position's high digit, shifted by the control's low digit, plus its low digit.
fn start_of(position: u8, control: u8) -> u32
    ensures value { result ≡ starts position control }
    ensures bound { result < 2 ^ 20 }
{
    (u32::from(position >> 4) << (control & 15)) + u32::from(position & 15)
}

// A size of 0 stands for 256.
fn full_size(size: u8) -> u32
    ensures value { result ≡ full size }
    ensures bound { result ≤ 256 }
{
    if size == 0 { 256 } else { u32::from(size) }
}

// The area that a control TLV names by its three bytes.
#[tactic(auto, unfolding(crate::specs::Areas::named))]
pub(crate) fn named_area(kind: Control, position: u8, size: u8, control: u8) -> Area
    ensures value { result ≡ named (kind_of kind) position size control }
{
    let start = start_of(position, control);
    let size = full_size(size);
    match kind {
        // All blocks that the lock bits touch.
        Control::Lock => Area {
            start: start / 4 * 4,
            stop: (start + size.div_ceil(8)).next_multiple_of(4),
        },
        Control::Memory => Area {
            start,
            stop: start + size,
        },
    }
}

impl Area {
    // Its addresses below `end`.
    pub(crate) fn below(self, end: u32) -> Range<usize>
        ensures value { (result.start ≡ min self.start (min self.stop end)) × (result.end ≡ min self.stop end) }
    {
        let stop = self.stop.min(end);
        self.start.min(stop) as usize..stop as usize
    }
}
