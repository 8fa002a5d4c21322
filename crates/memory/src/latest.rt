// The latest record of a block among records in the order of their writing.
ghost use Rattle.std.specs.Prelude.{◌≡◌};
ghost use Rattle.memory.specs.Latest.{latest_of};

// One write: the block, and the bytes that it got.
#[derive(Clone, Copy, Default)]
pub struct Record {
    pub block: u8,
    pub bytes: [u8; 4],
}

// The bytes of the block's latest record, if it has one. A call of its own, and the block first, so that its loop stands once and lies well (docs/window.md).
#[inline(never)]
pub(crate) fn latest(block: u8, records: &[Record]) -> Option<[u8; 4]>
    ensures value { result ≡ latest_of records.now block }
{
    for record in records.iter().rev() {
        if record.block == block {
            return Some(record.bytes);
        }
    }
    None
}
