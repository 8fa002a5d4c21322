// The memory map: what lies in which block. Numbers, and not `Block`s, since a `match` takes them as patterns.

// Lock bits of blocks 3 to 15, STATLOCK, in its last two bytes.
pub(crate) const STATIC_LOCKS: u8 = 2;

pub(crate) const CAPABILITY: u8 = 3;

// Lock bits of blocks 16 to 63.
pub(crate) const DYNAMIC_LOCKS: u8 = 44;

pub(crate) const PRODUCT: u8 = 45;

// The window's setting.
pub(crate) const SETTING: u8 = 46;

// The kill password.
pub(crate) const PASSWORD: u8 = 47;

// A WRITE of the password here kills the tag.
pub(crate) const KEYHOLE: u8 = 48;

// The tap number, lowest byte first.
pub(crate) const TAPS: u8 = 49;

// Its first byte says whether the tag is killed.
pub(crate) const KILL: u8 = 50;

// The last block that is closed to WRITE with the two before it.
pub(crate) const LAST_CLOSED: u8 = 51;

// The custom field and, in its last block, the separator.
pub(crate) const CUSTOM: u8 = 60;
