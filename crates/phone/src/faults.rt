// What the phone end refuses, each fault named once: a function each, since a number that is passed in says nothing to a reader.
ghost use Rattle.std.specs.Prelude.{◌≡◌};

use air::fault::Fault;

// A picture that is not of 256 bytes.
pub(crate) const WRONG_SIZE: Fault = Fault::Call {
    number: 6,
    address: 0,
};

// A buffer that the longest listing does not fit.
pub(crate) const SMALL_BUFFER: Fault = Fault::Call {
    number: 7,
    address: 0,
};

// A capability container that is not accepted.
pub(crate) const NO_CONTAINER: Fault = Fault::Layout {
    number: 9,
    address: 12,
};

// A control TLV whose length is not 3.
pub(crate) fn not_three(at: u16) -> Fault
    ensures value { result ≡ Fault.Layout 10 at }
{
    Fault::Layout {
        number: 10,
        address: at,
    }
}

// A TLV that the area's end cuts short.
pub(crate) fn cut_short(at: u16) -> Fault
    ensures value { result ≡ Fault.Layout 11 at }
{
    Fault::Layout {
        number: 11,
        address: at,
    }
}

// A length byte FFh.
pub(crate) fn long_length(at: u16) -> Fault
    ensures value { result ≡ Fault.Layout 12 at }
{
    Fault::Layout {
        number: 12,
        address: at,
    }
}

// No message before the walk's end.
pub(crate) fn no_message(at: u16) -> Fault
    ensures value { result ≡ Fault.Layout 13 at }
{
    Fault::Layout {
        number: 13,
        address: at,
    }
}
